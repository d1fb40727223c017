// The variants of an enum.

ghost use Rattle.tree.specs.At.{TypeAt};
ghost use Rattle.layout.specs.Layout.{type_expr};
ghost use Rattle.layout.specs.Promises.{Has, LaidAs};
ghost use Rattle.layout.specs.Elems.{VariantAt, variant_rule};
ghost use Rattle.layout.specs.Forms.{SomeTypesAt, LastEnd};

use crate::forms::PARENS;
use crate::lists::separated;
use crate::paths::ident;
use crate::types::type_expr;
use acts::State;
use comments::parsed::Parsed;
use image::sizes::HEAD;

// Where the span of the last type ends, of those from `from` up to `to`.
fn last_end(parsed: &Parsed<'_>, from: usize, to: usize) -> u32
    requires { SomeTypesAt parsed.now.image.now from to }
    ensures { LastEnd parsed.now.image.now from to result }
{
    let mut last = from;
    for at in parsed.records(from, to) {
        last = at;
    }
    parsed.end(last)
}

// A variant, with its types where it has some. The span of their list ends with the last of them.
pub(crate) fn variant(state: &mut State<'_>, parsed: &Parsed<'_>, at: usize)
    requires { Has VariantAt variant_rule parsed.now at state.old.cursor }
    ensures { LaidAs VariantAt variant_rule parsed.now at state.old state.new }
{
    let p = parsed.second(at);
    let to = parsed.past(p);
    ident(state, parsed, at + HEAD);
    if p + HEAD == to {
        return;
    }
    let last = last_end(parsed, p + HEAD, to);
    let item = |inner: &mut State<'_>, q: usize|
        requires { Has TypeAt type_expr parsed.now q inner.old.cursor }
        ensures { LaidAs TypeAt type_expr parsed.entry.now q inner.old inner.new }
    { type_expr(inner, parsed, q) };
    separated(state, parsed, p, last, PARENS, item);
}
