// Pieces of the rules that lay no part of the syntax tree below them.
ghost use Rattle.std.specs.Prelude.{not, ◌&&◌};
ghost use Rattle.acts.specs.Spelling.{spelling};
ghost use Rattle.rows.specs.Node.{wrap_parent};
ghost use Rattle.acts.specs.Act.{◌⨟◌, says, when, push};
ghost use Rattle.acts.specs.Laid.{Room};
ghost use Rattle.acts.specs.Does.{Does, Small, node_of};
ghost use Rattle.comments.specs.Comments.{whitespace, pop_trailing_comment};
ghost use Rattle.tree.specs.CommentList.{span};
ghost use Rattle.comments.specs.Parsed.{given_by};
ghost use Rattle.layout.specs.Layout.{gap, edge, is_wrap, before_elem, ends};
ghost use Rattle.layout.specs.Elems.{mark, starts, HasEmpty, LaidEmpty};

use crate::forms::{ListForm, WrapStyle};
use acts::State;
use acts::leaves::Leaf;
use acts::parts::Branch;
use acts::words::Word;
use comments::parsed::Parsed;
use comments::{Gap, Kept, is_whitespace, pop_trailing_comment, pop_whitespace};

// `pop_whitespace` where what it returns isn't looked at.
pub(crate) fn gap(state: &mut State<'_>, parsed: &Parsed<'_>, position: u32, kept: &Kept)
    requires { Room (gap (given_by parsed.now) position kept.now.leading kept.now.trailing kept.now.only) state.old.cursor }
    ensures { Does (gap (given_by parsed.now) position kept.now.leading kept.now.trailing kept.now.only) state.old state.new }
{
    pop_whitespace(state, parsed, position, kept);
}

// A leaf between two parts, except before the first, and after white space that is kept.
pub(crate) fn between(state: &mut State<'_>, leaf: Leaf, first: bool, gap: Gap)
    requires room { Room (when (not first && not (whitespace gap)) (push (node_of leaf))) state.old.cursor }
    requires small { Small leaf }
    ensures { Does (when (not first && not (whitespace gap)) (push (node_of leaf))) state.old state.new }
{
    if first || is_whitespace(gap) {
        return;
    }
    state.push(leaf);
}

// The line or the space inside the brackets of `separated`.
// kept: a choice between two leaves by the list's style, as in the Rust.
pub(crate) fn edge(state: &mut State<'_>, style: WrapStyle)
    requires { Room (edge style) state.old.cursor }
    ensures { Does (edge style) state.old state.new }
{
    match style {
        WrapStyle::Spaced => state.push(Leaf::LineOrSpace),
        WrapStyle::Tight | WrapStyle::Wrap => state.push(Leaf::Line),
    }
}

// `WrapParent`, where the list always wraps.
fn wrap_always(state: &mut State<'_>, style: WrapStyle)
    requires { Room (when (is_wrap style) (push wrap_parent)) state.old.cursor }
    ensures { Does (when (is_wrap style) (push wrap_parent)) state.old state.new }
{
    match style {
        WrapStyle::Wrap => state.push(Leaf::WrapParent),
        WrapStyle::Tight => {}
        WrapStyle::Spaced => {}
    }
}

// What comes before the elements, inside the list's group.
pub(crate) fn open_list(state: &mut State<'_>, form: ListForm)
    requires { Room (starts form) state.old.cursor }
    ensures { Does (starts form) state.old state.new }
{
    let style = form.style;
    wrap_always(state, style);
    state.word(form.left);
    edge(state, style);
}

// What comes before an element.
pub(crate) fn before_elem(
    state: &mut State<'_>,
    parsed: &Parsed<'_>,
    position: u32,
    first: bool,
    commas: bool,
)
    requires { Room (before_elem (given_by parsed.now) (mark commas) first position) state.old.cursor }
    ensures { Does (before_elem (given_by parsed.now) (mark commas) first position) state.old state.new }
{
    if first {
        gap(state, parsed, position, &Kept::AROUND_COMMENTS);
        return;
    }
    if commas {
        state.word(Word::Comma);
        gap(state, parsed, position, &Kept::AROUND_COMMENTS);
        state.push(Leaf::LineOrSpace);
        return;
    }
    gap(state, parsed, position, &Kept::AROUND_COMMENTS);
    state.push(Leaf::LineOrSpace);
}

// What comes after the elements of a list whose group has the number id.
pub(crate) fn end_elems(state: &mut State<'_>, parsed: &Parsed<'_>, end: u32, id: u32, commas: bool)
    requires { Room (ends (given_by parsed.now) (mark commas) id (span 0 end)) state.old.cursor }
    ensures { Does (ends (given_by parsed.now) (mark commas) id (span 0 end)) state.old state.new }
{
    if commas {
        state.if_wrap(id, Word::Comma);
        gap(state, parsed, end, &Kept::BEFORE_COMMENTS);
        return;
    }
    gap(state, parsed, end, &Kept::BEFORE_COMMENTS);
}

// The end of a list: its line or space, its word and the comment after it.
pub(crate) fn close_list(state: &mut State<'_>, parsed: &Parsed<'_>, form: ListForm)
    requires { Room (edge form.style ⨟ says (spelling form.right) ⨟ pop_trailing_comment (given_by parsed.now)) state.old.cursor }
    ensures { Does (edge form.style ⨟ says (spelling form.right) ⨟ pop_trailing_comment (given_by parsed.now)) state.old state.new }
{
    let style = form.style;
    edge(state, style);
    state.word(form.right);
    pop_trailing_comment(state, parsed);
}

// `separated` without elements.
pub(crate) fn empty_list(state: &mut State<'_>, parsed: &Parsed<'_>, end: u32, form: ListForm)
    requires { HasEmpty form end parsed.now state.old.cursor }
    ensures { LaidEmpty form end parsed.now state.old state.new }
{
    let group = state.open(Branch::Group);
    state.word(form.left);
    state.push(Leaf::Line);
    let indent = state.open(Branch::Indent);
    gap(state, parsed, end, &Kept::NONE);
    state.close(indent);
    state.push(Leaf::Line);
    state.word(form.right);
    pop_trailing_comment(state, parsed);
    state.close(group);
}
