// Lists of identifiers: `type_params`, and the fields of a pattern.

ghost use Rattle.tree.specs.At.{IdentAt, ListAt, PatternAt};
ghost use Rattle.layout.specs.Layout.{ident, pattern};
ghost use Rattle.layout.specs.Promises.{Has, LaidAs};
ghost use Rattle.layout.specs.Elems.{type_params_rule};

use crate::forms::{BRACKETS, PARENS};
use crate::kinds::Pattern;
use crate::lists::separated;
use crate::paths::ident;
use acts::State;
use acts::words::Word;
use comments::parsed::Parsed;
use image::sizes::HEAD;

pub(crate) fn type_params(state: &mut State<'_>, parsed: &Parsed<'_>, at: usize)
    requires { Has ListAt type_params_rule parsed.now at state.old.cursor }
    ensures { LaidAs ListAt type_params_rule parsed.now at state.old state.new }
{
    let name = |inner: &mut State<'_>, p: usize|
        requires { Has IdentAt ident parsed.now p inner.old.cursor }
        ensures { LaidAs IdentAt ident parsed.entry.now p inner.old inner.new }
    { ident(inner, parsed, p) };
    separated(state, parsed, at, parsed.end(at), BRACKETS, name);
}

// The pattern of an arm of `r#match`.
pub(crate) fn pattern(state: &mut State<'_>, parsed: &Parsed<'_>, at: usize)
    requires { Has PatternAt pattern parsed.now at state.old.cursor }
    ensures { LaidAs PatternAt pattern parsed.now at state.old state.new }
{
    if Pattern::read(parsed, at) == Pattern::Underscore {
        state.word(Word::Underscore);
        return;
    }
    let p = parsed.second(at);
    ident(state, parsed, at + HEAD);
    if parsed.is_absent(p) {
        return;
    }
    let name = |inner: &mut State<'_>, q: usize|
        requires { Has IdentAt ident parsed.now q inner.old.cursor }
        ensures { LaidAs IdentAt ident parsed.entry.now q inner.old inner.new }
    { ident(inner, parsed, q) };
    separated(state, parsed, p, parsed.end(p), PARENS, name);
}
