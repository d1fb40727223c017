// Identifiers and paths.

ghost use Rattle.tree.specs.At.{IdentAt, IdentsAt, PathAt};
ghost use Rattle.rows.specs.Node.{line};
ghost use Rattle.acts.specs.Act.{when, push};
ghost use Rattle.acts.specs.Laid.{Room};
ghost use Rattle.acts.specs.Does.{Does};
ghost use Rattle.layout.specs.Layout.{ident, path_next, path_more, path_rule};
ghost use Rattle.layout.specs.Promises.{Has, LaidAs, HasAll, LaidAll};
ghost use Rattle.layout.specs.Forms.{field_name};

use crate::pieces::gap;
use acts::State;
use acts::leaves::Leaf;
use acts::parts::Branch;
use acts::words::Word;
use comments::parsed::Parsed;
use comments::{Kept, pop_trailing_comment};
use image::sizes::HEAD;
use image::width::{stored_width, width_bytes};
use rows::units::{Bytes, Columns};

// `Node::ident`: the text at `at`, with its width.
pub(crate) fn ident(state: &mut State<'_>, parsed: &Parsed<'_>, at: usize)
    requires { Has IdentAt ident parsed.now at state.old.cursor }
    ensures { LaidAs IdentAt ident parsed.now at state.old state.new }
{
    let image = parsed.image;
    let from = at + HEAD + width_bytes(image);
    let width = Columns(stored_width(image, at));
    let size = Bytes(parsed.past(at) - from);
    state.push(Leaf::Str {
        start: from as u32,
        size,
        width,
    });
}

// A line, where line breaks are allowed.
// kept: the flag is `allow_line_breaks` of the Rust, which the caller has as a flag and not as a step.
fn line_if(state: &mut State<'_>, breaks: bool)
    requires { Room (when breaks (push line)) state.old.cursor }
    ensures { Does (when breaks (push line)) state.old state.new }
{
    if breaks {
        state.push(Leaf::Line);
    }
}

// An identifier of a path, after the first.
fn path_next(state: &mut State<'_>, parsed: &Parsed<'_>, at: usize, breaks: bool)
    requires { Has IdentAt (λ g. path_next g breaks) parsed.now at state.old.cursor }
    ensures { LaidAs IdentAt (λ g. path_next g breaks) parsed.now at state.old state.new }
{
    let position = parsed.end(at);
    line_if(state, breaks);
    gap(state, parsed, position, &Kept::NONE);
    state.word(Word::Dot);
    ident(state, parsed, at);
}

// The identifiers of a path after the first.
fn path_more(state: &mut State<'_>, parsed: &Parsed<'_>, from: usize, to: usize, breaks: bool)
    requires { HasAll IdentsAt (λ g. path_more g breaks) parsed.now from to state.old.cursor }
    ensures { LaidAll IdentsAt (λ g. path_more g breaks) parsed.now from to state.old state.new }
{
    for at in parsed.records(from, to) {
        path_next(state, parsed, at, breaks);
    }
}

// kept: `path` of the Rust has both flags, `group` and `allow_line_breaks`, and tests them where the code here does.
pub(crate) fn path(state: &mut State<'_>, parsed: &Parsed<'_>, at: usize, group: bool, breaks: bool)
    requires { Has PathAt (λ g p. path_rule g p group breaks) parsed.now at state.old.cursor }
    ensures { LaidAs PathAt (λ g p. path_rule g p group breaks) parsed.now at state.old state.new }
{
    let from = parsed.second(at);
    let to = parsed.past(at);
    if group {
        let group = state.open(Branch::Group);
        ident(state, parsed, at + HEAD);
        let indent = state.open(Branch::Indent);
        path_more(state, parsed, from, to, breaks);
        state.close(indent);
        state.close(group);
        pop_trailing_comment(state, parsed);
        return;
    }
    ident(state, parsed, at + HEAD);
    path_more(state, parsed, from, to, breaks);
    pop_trailing_comment(state, parsed);
}

// The field of an access, after its dot.
pub(crate) fn field_name(state: &mut State<'_>, parsed: &Parsed<'_>, at: usize)
    requires { Has IdentAt field_name parsed.now at state.old.cursor }
    ensures { LaidAs IdentAt field_name parsed.now at state.old state.new }
{
    state.push(Leaf::Line);
    state.word(Word::Dot);
    ident(state, parsed, at);
}
