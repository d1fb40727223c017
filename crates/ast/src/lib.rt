// Theory only: the syntax tree of src/ast.rs.
#![tactic(auto)]
