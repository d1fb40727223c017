// Refusal 12, as far as it is of layout: a function for each group of tests.
ghost use Rattle.std.specs.Prelude.{◌≡◌, not, ◌++◌};
ghost use Rattle.refusals.specs.Refusals.{any};
ghost use Rattle.cut_rule.specs.Tests.{places_tests, limit_tests, begun_tests, stop_tests, mode_tests, rule_tests, layout_tests_in};
ghost use Rattle.layout_call.specs.Calls.{to_state, to_args};
ghost use Rattle.layout_call.specs.Within.{within_tests};

use crate::modes::NEW_MODE;
use crate::{LayoutArgs, LayoutState};
use choices::rule_fits;
use rows::limits::{MAX_NUMBER, MAX_ROWS};

// What a state may be within: how many declarations, comments, bytes of the source and rows of the store there are.
#[derive(Clone, Copy)]
pub(crate) struct Within {
    pub declarations: usize,
    pub comments: usize,
    pub size: usize,
    pub rows: usize,
}

// Whether the state's places are within declarations, comments, source and store.
fn places_fit(state: LayoutState, within: Within) -> bool
    ensures { result ≡ not (any (within_tests places_tests within (to_state state))) }
{
    state.declaration <= within.declarations
        && state.placed <= within.comments
        && state.position <= within.size
        && state.row <= within.rows
}

// Whether next row and next number are within their limits.
fn limits_fit(state: LayoutState) -> bool
    ensures { result ≡ not (any (limit_tests (to_state state))) }
{
    state.row <= MAX_ROWS && state.number <= MAX_NUMBER
}

// Whether the state has begun, or is all 0.
fn begins_fresh(state: LayoutState) -> bool
    ensures { result ≡ not (any (begun_tests (to_state state))) }
{
    state.begun || state == LayoutState::default()
}

// Whether the stop is one that this state can go to, closing there or not.
fn stop_fits(state: LayoutState, args: LayoutArgs, declarations: usize) -> bool
    ensures { result ≡ not (any (stop_tests declarations (to_args args) (to_state state))) }
{
    state.declaration <= args.stop
        && args.stop <= declarations
        && !state.closed
        && (!args.close || args.stop == declarations)
}

// Whether the mode is one, and the carried one once begun.
fn mode_fits(state: LayoutState, args: LayoutArgs) -> bool
    ensures { result ≡ not (any (mode_tests (to_args args).choice (to_state state))) }
{
    args.mode <= NEW_MODE && (!state.begun || args.mode == state.mode)
}

// Whether what the call chooses is what the state carries.
fn choice_fits(state: LayoutState, args: LayoutArgs) -> bool
    ensures { result ≡ not (any (mode_tests (to_args args).choice (to_state state) ++ rule_tests args.rule state.rule)) }
{
    mode_fits(state, args) && rule_fits(args.rule, state.rule)
}

// Whether the state is one that this call may have.
pub(crate) fn state_fits(state: LayoutState, args: LayoutArgs, within: Within) -> bool
    ensures { result ≡ not (any (within_tests layout_tests_in within (to_args args) (to_state state))) }
{
    places_fit(state, within)
        && limits_fit(state)
        && begins_fresh(state)
        && stop_fits(state, args, within.declarations)
        && choice_fits(state, args)
}
