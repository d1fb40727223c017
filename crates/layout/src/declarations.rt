// `declaration`, and the parts of `fmt_parsed`.
ghost use Rattle.ast.specs.Syntax.{filter_map, const, record_decl, enum_decl, function, test, import_decl};
ghost use Rattle.tree.specs.At.{IdentAt, DeclarationsAt};
ghost use Rattle.acts.specs.Laid.{Room};
ghost use Rattle.acts.specs.Does.{Does};
ghost use Rattle.comments.specs.Parsed.{given_by};
ghost use Rattle.layout.specs.Layout.{opening, some_type_params, return_type, shebang_rule};
ghost use Rattle.layout.specs.Promises.{Has, LaidAs, HasAll, LaidAll};
ghost use Rattle.layout.specs.Elems.{VariantAt, variant_rule};
ghost use Rattle.layout.specs.Forms.{two, three, four, five, OfDeclaration, declaration_rule, any_declaration, declares_at, MaybeListAt};
ghost use Rattle.layout.specs.Forms.{TypeNameAt, declares_type, FunctionNameAt, declares_function, MaybeTypeAt, MaybeIdentAt, declarations_from};

use crate::forms::{BRACES, ListForm, WrapStyle};
use crate::idents::type_params;
use crate::imports::import_path;
use crate::kinds::Declaration;
use crate::lists::separated;
use crate::paths::ident;
use crate::pieces::between;
use crate::types::{params, record_type, type_expr};
use crate::variants::variant;
use crate::{block, expr};
use acts::State;
use acts::leaves::Leaf;
use acts::words::Word;
use comments::parsed::Parsed;
use comments::{Kept, pop_whitespace};
use image::sizes::HEAD;
use image::width::{stored_width, width_bytes};
use rows::units::{Bytes, Columns};
use text::space::trim_end;

// How each declaration begins.
fn opening(state: &mut State<'_>, parsed: &Parsed<'_>, position: u32, first: bool)
    requires { Room (opening (given_by parsed.now) position first) state.old.cursor }
    ensures { Does (opening (given_by parsed.now) position first) state.old state.new }
{
    let kept = Kept {
        leading: !first,
        only: !first,
        ..Kept::AFTER_COMMENTS
    };
    let gap = pop_whitespace(state, parsed, position, &kept);
    between(state, Leaf::Line, first, gap);
}

// The start of each declaration but `import`: a word, and the name at `at`.
fn declares(state: &mut State<'_>, parsed: &Parsed<'_>, at: usize, k: Word, first: bool)
    requires { Has IdentAt (declares_at k first) parsed.now at state.old.cursor }
    ensures { LaidAs IdentAt (declares_at k first) parsed.now at state.old state.new }
{
    opening(state, parsed, parsed.start(at), first);
    state.word(k);
    ident(state, parsed, at);
}

// Type parameters, where there are any.
fn some_type_params(state: &mut State<'_>, parsed: &Parsed<'_>, at: usize)
    requires { Has MaybeListAt some_type_params parsed.now at state.old.cursor }
    ensures { LaidAs MaybeListAt some_type_params parsed.now at state.old state.new }
{
    if parsed.is_absent(at) {
        return;
    }
    if at + HEAD == parsed.past(at) {
        return;
    }
    type_params(state, parsed, at);
}

// The start of `record` and `enum`, whose record is at `at`: the name, and the type parameters.
// kept: see `declares_function` below.
fn declares_type(state: &mut State<'_>, parsed: &Parsed<'_>, at: usize, k: Word, first: bool)
    requires { Has TypeNameAt (declares_type k first) parsed.now at state.old.cursor }
    ensures { LaidAs TypeNameAt (declares_type k first) parsed.now at state.old state.new }
{
    let p = parsed.second(at);
    declares(state, parsed, at + HEAD, k, first);
    some_type_params(state, parsed, p);
    state.word(Word::Space);
}

// The start of `filtermap` and `fn`, whose record is at `at`: the name, and the parameters.
// kept: like `declares_type` but for one call; a closure for it would need both clauses.
fn declares_function(state: &mut State<'_>, parsed: &Parsed<'_>, at: usize, k: Word, first: bool)
    requires { Has FunctionNameAt (declares_function k first) parsed.now at state.old.cursor }
    ensures { LaidAs FunctionNameAt (declares_function k first) parsed.now at state.old state.new }
{
    let p = parsed.second(at);
    declares(state, parsed, at + HEAD, k, first);
    params(state, parsed, p);
    state.word(Word::Space);
}

// The type that a function returns, where it says one.
fn return_type(state: &mut State<'_>, parsed: &Parsed<'_>, at: usize)
    requires { Has MaybeTypeAt return_type parsed.now at state.old.cursor }
    ensures { LaidAs MaybeTypeAt return_type parsed.now at state.old state.new }
{
    if parsed.is_absent(at) {
        return;
    }
    state.word(Word::Arrow);
    type_expr(state, parsed, at);
    state.word(Word::Space);
}

fn filter_map(state: &mut State<'_>, parsed: &Parsed<'_>, at: usize, first: bool)
    requires { Has (OfDeclaration (four filter_map)) (declaration_rule (four filter_map) first) parsed.now at state.old.cursor }
    ensures { LaidAs (OfDeclaration (four filter_map)) (declaration_rule (four filter_map) first) parsed.now at state.old state.new }
{
    let q = parsed.third(at);
    declares_function(state, parsed, at, Word::FilterMap, first);
    block(state, parsed, q);
}

fn constant(state: &mut State<'_>, parsed: &Parsed<'_>, at: usize, first: bool)
    requires { Has (OfDeclaration (three const)) (declaration_rule (three const) first) parsed.now at state.old.cursor }
    ensures { LaidAs (OfDeclaration (three const)) (declaration_rule (three const) first) parsed.now at state.old state.new }
{
    let p = parsed.second(at);
    let q = parsed.third(at);
    declares(state, parsed, at + HEAD, Word::Const, first);
    state.word(Word::Colon);
    type_expr(state, parsed, p);
    state.word(Word::Assign);
    expr(state, parsed, q);
    state.word(Word::Semicolon);
}

fn decl_record(state: &mut State<'_>, parsed: &Parsed<'_>, at: usize, first: bool)
    requires { Has (OfDeclaration (four record_decl)) (declaration_rule (four record_decl) first) parsed.now at state.old.cursor }
    ensures { LaidAs (OfDeclaration (four record_decl)) (declaration_rule (four record_decl) first) parsed.now at state.old state.new }
{
    let q = parsed.third(at);
    declares_type(state, parsed, at, Word::Record, first);
    record_type(state, parsed, q, WrapStyle::Wrap);
}

fn decl_enum(state: &mut State<'_>, parsed: &Parsed<'_>, at: usize, first: bool)
    requires { Has (OfDeclaration (four enum_decl)) (declaration_rule (four enum_decl) first) parsed.now at state.old.cursor }
    ensures { LaidAs (OfDeclaration (four enum_decl)) (declaration_rule (four enum_decl) first) parsed.now at state.old state.new }
{
    let q = parsed.third(at);
    declares_type(state, parsed, at, Word::Enum, first);
    let form = ListForm {
        style: WrapStyle::Wrap,
        ..BRACES
    };
    let item = |inner: &mut State<'_>, r: usize|
        requires { Has VariantAt variant_rule parsed.now r inner.old.cursor }
        ensures { LaidAs VariantAt variant_rule parsed.entry.now r inner.old inner.new }
    { variant(inner, parsed, r) };
    separated(state, parsed, q, parsed.end(q), form, item);
}

fn function(state: &mut State<'_>, parsed: &Parsed<'_>, at: usize, first: bool)
    requires { Has (OfDeclaration (five function)) (declaration_rule (five function) first) parsed.now at state.old.cursor }
    ensures { LaidAs (OfDeclaration (five function)) (declaration_rule (five function) first) parsed.now at state.old state.new }
{
    let q = parsed.third(at);
    declares_function(state, parsed, at, Word::Fn, first);
    return_type(state, parsed, q);
    block(state, parsed, parsed.past(q));
}

fn test(state: &mut State<'_>, parsed: &Parsed<'_>, at: usize, first: bool)
    requires { Has (OfDeclaration (two test)) (declaration_rule (two test) first) parsed.now at state.old.cursor }
    ensures { LaidAs (OfDeclaration (two test)) (declaration_rule (two test) first) parsed.now at state.old state.new }
{
    let p = parsed.second(at);
    declares(state, parsed, at + HEAD, Word::Test, first);
    state.word(Word::Space);
    block(state, parsed, p);
}

fn decl_import(state: &mut State<'_>, parsed: &Parsed<'_>, at: usize, first: bool)
    requires { Has (OfDeclaration import_decl) (declaration_rule import_decl first) parsed.now at state.old.cursor }
    ensures { LaidAs (OfDeclaration import_decl) (declaration_rule import_decl first) parsed.now at state.old state.new }
{
    opening(state, parsed, parsed.start(at), first);
    state.word(Word::Import);
    import_path(state, parsed, at);
    state.word(Word::Semicolon);
}

// The declaration at `at`, which is the file's first or not.
// kept: a choice by what stands in the tree, as in the Rust.
pub(crate) fn declaration(state: &mut State<'_>, parsed: &Parsed<'_>, at: usize, first: bool)
    requires { Has (OfDeclaration any_declaration) (declaration_rule any_declaration first) parsed.now at state.old.cursor }
    ensures { LaidAs (OfDeclaration any_declaration) (declaration_rule any_declaration first) parsed.now at state.old state.new }
{
    match Declaration::read(parsed, at) {
        Declaration::FilterMap => filter_map(state, parsed, at, first),
        Declaration::Const => constant(state, parsed, at, first),
        Declaration::Record => decl_record(state, parsed, at, first),
        Declaration::Enum => decl_enum(state, parsed, at, first),
        Declaration::Function => function(state, parsed, at, first),
        Declaration::Test => test(state, parsed, at, first),
        Declaration::Import => decl_import(state, parsed, at, first),
    }
}

// The shebang at `at`, without the white space at its end, where there is one.
pub fn shebang(state: &mut State<'_>, parsed: &Parsed<'_>, at: usize)
    requires { Has MaybeIdentAt shebang_rule parsed.now at state.old.cursor }
    ensures { LaidAs MaybeIdentAt shebang_rule parsed.now at state.old state.new }
{
    let image = parsed.image;
    if parsed.is_absent(at) {
        return;
    }
    let from = at + HEAD + width_bytes(image);
    let width = Columns(stored_width(image, at));
    let size = Bytes(trim_end(image, from, parsed.past(at)) - from);
    state.push(Leaf::Str {
        start: from as u32,
        size,
        width,
    });
    state.push(Leaf::EmptyLine);
}

// The declarations from `from` up to `to`, of which the first is the file's first or not.
pub fn declarations(state: &mut State<'_>, parsed: &Parsed<'_>, from: usize, to: usize, opens: bool)
    requires { HasAll DeclarationsAt (declarations_from opens) parsed.now from to state.old.cursor }
    ensures { LaidAll DeclarationsAt (declarations_from opens) parsed.now from to state.old state.new }
{
    let mut first = opens;
    for at in parsed.records(from, to) {
        declaration(state, parsed, at, first);
        first = false;
    }
}
