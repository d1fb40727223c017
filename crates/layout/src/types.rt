// Types, and lists of types and of fields. They call each other, and the record's length falls at each call.
ghost use Rattle.std.specs.Prelude.{true};
ghost use Rattle.image.specs.Kinds.{LIST};
ghost use Rattle.ast.specs.Syntax.{type_path};
ghost use Rattle.tree.specs.At.{TypeAt, FieldsAt};
ghost use Rattle.layout.specs.Layout.{type_expr};
ghost use Rattle.layout.specs.Promises.{Has, LaidAs};
ghost use Rattle.layout.specs.Elems.{FieldAt, field_rule, ListWith, params_rule, record_type_with};
ghost use Rattle.layout.specs.Forms.{two, OfType, type_rule};

use crate::forms::{BRACES, BRACKETS, ListForm, PARENS, WrapStyle};
use crate::kinds::TypeExpr;
use crate::lists::separated;
use crate::paths::{ident, path};
use acts::State;
use acts::words::Word;
use comments::parsed::Parsed;
use image::sizes::HEAD;

// kept: a choice by what stands in the tree, as in the Rust.
#[cycle(type_expr)]
pub(crate) fn type_expr(state: &mut State<'_>, parsed: &Parsed<'_>, at: usize)
    requires { Has TypeAt type_expr parsed.now at state.old.cursor }
    ensures { LaidAs TypeAt type_expr parsed.now at state.old state.new }
{
    match TypeExpr::read(parsed, at) {
        TypeExpr::Option => {
            type_expr(state, parsed, at + HEAD);
            state.word(Word::Question)
        }
        TypeExpr::Path => type_path(state, parsed, at),
        TypeExpr::Never => state.word(Word::Not),
        TypeExpr::Unit => state.word(Word::Unit),
        TypeExpr::Record => record_type(state, parsed, at + HEAD, WrapStyle::Tight),
    }
}

// `type_expr`, the arm of `Path`: the path, and its arguments where it has some.
#[cycle(type_expr)]
fn type_path(state: &mut State<'_>, parsed: &Parsed<'_>, at: usize)
    requires { Has (OfType (two type_path)) (type_rule (two type_path)) parsed.now at state.old.cursor }
    ensures { LaidAs (OfType (two type_path)) (type_rule (two type_path)) parsed.now at state.old state.new }
{
    let p = parsed.second(at);
    path(state, parsed, at + HEAD, true, true);
    if parsed.is_absent(p) {
        return;
    }
    let argument = |inner: &mut State<'_>, q: usize|
        requires { Has TypeAt type_expr parsed.now q inner.old.cursor }
        ensures { LaidAs TypeAt type_expr parsed.entry.now q inner.old inner.new }
    { type_expr(inner, parsed, q) };
    separated(state, parsed, p, parsed.end(p), BRACKETS, argument);
}

#[cycle(type_expr)]
pub(crate) fn record_type(state: &mut State<'_>, parsed: &Parsed<'_>, at: usize, style: WrapStyle)
    requires { Has (ListWith LIST FieldsAt) (record_type_with style) parsed.now at state.old.cursor }
    ensures { LaidAs (ListWith LIST FieldsAt) (record_type_with style) parsed.now at state.old state.new }
{
    let form = ListForm { style, ..BRACES };
    let named = |inner: &mut State<'_>, p: usize|
        requires { Has FieldAt field_rule parsed.now p inner.old.cursor }
        ensures { LaidAs FieldAt field_rule parsed.entry.now p inner.old inner.new }
    { field(inner, parsed, p) };
    separated(state, parsed, at, parsed.end(at), form, named);
}

// The closure of `params` and `record_type`: a name and its type.
// kept: like `entry` of lib.rt but for what comes behind the colon.
#[cycle(type_expr)]
fn field(state: &mut State<'_>, parsed: &Parsed<'_>, at: usize)
    requires { Has FieldAt field_rule parsed.now at state.old.cursor }
    ensures { LaidAs FieldAt field_rule parsed.now at state.old state.new }
{
    let p = parsed.second(at);
    ident(state, parsed, at + HEAD);
    state.word(Word::Colon);
    type_expr(state, parsed, p);
}

// kept: like `function_args` of lib.rt but for the element.
pub(crate) fn params(state: &mut State<'_>, parsed: &Parsed<'_>, at: usize)
    requires { Has (ListWith LIST FieldsAt) params_rule parsed.now at state.old.cursor }
    ensures { LaidAs (ListWith LIST FieldsAt) params_rule parsed.now at state.old state.new }
{
    let named = |inner: &mut State<'_>, p: usize|
        requires { Has FieldAt field_rule parsed.now p inner.old.cursor }
        ensures { LaidAs FieldAt field_rule parsed.entry.now p inner.old inner.new }
    { field(inner, parsed, p) };
    separated(state, parsed, at, parsed.end(at), PARENS, named);
}
