// Theory only: nodes with the widths of their texts by a rule, as layout writes them and as rendering measures them.
#![tactic(auto)]
