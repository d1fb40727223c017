// Comment placing, after `pop_trailing_comment`, `pop_whitespace`, `newlines` and `ignore_newlines` of fmt.rs. The comments are in the
// image, and the cursor says how many of them are placed.
// kept: `state` is what a function changes, `parsed` what it reads, `position` how far it goes. With both in one struct, as in the Rust's
// `self`, each promise would also have to say that `parsed` is unchanged.
#![tactic(auto)]

ghost use Rattle.std.specs.Prelude.{◌≡◌, cond, ◌≤◌, length, Some};
ghost use Rattle.acts.specs.Act.{step_alone};
ghost use Rattle.acts.specs.Laid.{st, Room};
ghost use Rattle.acts.specs.Does.{Does, Asked};
ghost use Rattle.comments.specs.Comments.{nth, break_line, uncounted, whitespace, push_comment, newlines, ignore_newlines, pop_comment, waits};
ghost use Rattle.comments.specs.Comments.{pop_comments, pop_whitespace, pop_trailing_comment};
ghost use Rattle.tree.specs.CommentList.{span, comments_of};
ghost use Rattle.comments.specs.Parsed.{given_by};

pub mod parsed;
mod reading;
pub mod record;
pub mod records;

use crate::parsed::Parsed;
use crate::reading::Reading;
use acts::leaves::Leaf;
use acts::{Cursor, State};
use rows::units::Bytes;
use text::newlines::Newlines;
use text::space::trim_end;

// A comment that waits to be placed: where it starts and ends in the source.
#[derive(Clone, Copy, Debug, PartialEq, Eq)]
pub struct Waiting {
    pub start: u32,
    pub end: u32,
}

// Which newlines are kept where white space is passed: those before the first comment, those after the last, and those where there is no
// comment. They are `preserve_leading_whitespace`, `preserve_trailing_whitespace` and `preserve_only_whitespace` of the Rust.
#[derive(Clone, Copy, Debug, PartialEq, Eq)]
pub struct Kept {
    pub leading: bool,
    pub trailing: bool,
    pub only: bool,
}

impl Kept {
    pub const NONE: Kept = Kept {
        leading: false,
        trailing: false,
        only: false,
    };

    pub const BEFORE_COMMENTS: Kept = Kept {
        leading: true,
        trailing: false,
        only: false,
    };

    pub const AFTER_COMMENTS: Kept = Kept {
        leading: false,
        trailing: true,
        only: false,
    };

    pub const AROUND_COMMENTS: Kept = Kept {
        leading: true,
        trailing: true,
        only: false,
    };

    pub const ALL: Kept = Kept {
        leading: true,
        trailing: true,
        only: true,
    };
}

// The white space before something: the newlines that were counted last, with the place of the last of them, and whether they come after
// comments that keep them.
// kept: request 1 (docs/notes/01) has the newlines and their place handed on, whether the flag is set or not: so no Option has them.
#[derive(Clone, Copy, Debug, PartialEq, Eq)]
pub struct Gap {
    pub newlines: Newlines,
    pub commented: bool,
}

// Whether a comment waits before the position.
fn is_waiting(c: Cursor, parsed: &Parsed<'_>, position: u32) -> bool
    ensures { result ≡ waits (given_by parsed.now) position (st c) }
{
    match parsed.front(c.placed) {
        Some(comment) => comment.start < position,
        None => false,
    }
}

// `Node::Comment` of a comment without the white space at its end.
fn push_comment(state: &mut State<'_>, parsed: &Parsed<'_>, comment: Waiting)
    requires start_le_end { comment.start ≤ comment.end }
    requires room { Room (push_comment (given_by parsed.now) (span comment.start comment.end)) state.old.cursor }
    ensures { Does (push_comment (given_by parsed.now) (span comment.start comment.end)) state.old state.new }
{
    let start = comment.start as usize;
    let trimmed = trim_end(parsed.source, start, comment.end as usize);
    state.push(Leaf::Comment {
        start: comment.start,
        size: Bytes(trimmed - start),
    });
}

// A line for one newline, an empty line for more. Where the last of them is doesn't matter here.
// kept: a match on a count, as in the Rust; no caller has a step that it could pass as a closure.
fn break_line(state: &mut State<'_>, n: Newlines)
    requires { Room (break_line n) state.old.cursor }
    ensures { Does (break_line n) state.old state.new }
{
    match n.count {
        0 => {}
        1 => state.push(Leaf::Line),
        _ => state.push(Leaf::EmptyLine),
    }
}

// A line for one newline up to the position, an empty line for more; it returns them.
fn newlines(state: &mut State<'_>, parsed: &Parsed<'_>, position: u32) -> Newlines
    requires { Room (step_alone (newlines (given_by parsed.now) position)) state.old.cursor }
    ensures { Asked (newlines (given_by parsed.now) position) state.old state.new result }
{
    let reading = Reading {
        source: parsed.source,
        at: state.cursor.pos as usize,
    };
    let n = reading.newlines_up_to(position as usize);
    break_line(state, n);
    state.move_to(position);
    n
}

// Goes to the position, or to the comment at the front where that starts before it.
// kept: an Option taken apart, and no choice of a step.
fn ignore_newlines(state: &mut State<'_>, parsed: &Parsed<'_>, position: u32)
    ensures { Does (ignore_newlines (given_by parsed.now) position) state.old state.new }
{
    match parsed.front(state.cursor.placed) {
        None => state.move_to(position),
        Some(comment) => state.move_to(position.min(comment.start)),
    }
}

// The newlines before a comment, which are kept or not.
// kept: the flag is the Rust's `preserve_leading_whitespace`, which its loop sets after each comment, so that no caller can lend the step.
fn before_comment(state: &mut State<'_>, parsed: &Parsed<'_>, leading: bool, start: u32)
    requires { Room (cond leading (step_alone (newlines (given_by parsed.now) start)) (ignore_newlines (given_by parsed.now) start)) state.old.cursor }
    ensures { Does (cond leading (step_alone (newlines (given_by parsed.now) start)) (ignore_newlines (given_by parsed.now) start)) state.old state.new }
{
    if leading {
        newlines(state, parsed, start);
        return;
    }
    ignore_newlines(state, parsed, start);
}

// One comment of `pop_whitespace`: the one at the front.
fn pop_comment(state: &mut State<'_>, parsed: &Parsed<'_>, leading: bool, comment: Waiting)
    requires placed_value { nth (comments_of parsed.now.image.now) state.old.cursor.placed ≡ Some (span comment.start comment.end) }
    requires room { Room (pop_comment (given_by parsed.now) leading (span comment.start comment.end)) state.old.cursor }
    ensures { Does (pop_comment (given_by parsed.now) leading (span comment.start comment.end)) state.old state.new }
{
    state.pop_front();
    before_comment(state, parsed, leading, comment.start);
    state.move_to(comment.end - 1);
    push_comment(state, parsed, comment);
}

// The loop of `pop_whitespace`: the comments that start before the position.
// kept: how many are popped is in the state, and goes on with each turn, so that no range has the turns.
fn pop_comments(state: &mut State<'_>, parsed: &Parsed<'_>, position: u32, leading: bool)
    requires { Room (pop_comments (given_by parsed.now) (length (comments_of parsed.now.image.now)) position leading) state.old.cursor }
    ensures { Does (pop_comments (given_by parsed.now) (length (comments_of parsed.now.image.now)) position leading) state.old state.new }
{
    let mut keep = leading;
    while let Some(comment) = parsed.front(state.cursor.placed) {
        if position <= comment.start {
            return;
        }
        pop_comment(state, parsed, keep, comment);
        keep = true;
    }
}

// The gap where newlines up to the position are not looked at.
fn uncounted(position: u32) -> Gap
    ensures { result ≡ uncounted position }
{
    Gap {
        newlines: Newlines {
            count: 0,
            place: position as usize,
        },
        commented: false,
    }
}

// `pop_whitespace`: the comments that wait, and then newlines, kept or not.
fn place_comments(state: &mut State<'_>, parsed: &Parsed<'_>, position: u32, kept: &Kept) -> Gap
    requires { Room (step_alone (pop_whitespace (given_by parsed.now) position kept.now.leading kept.now.trailing kept.now.only)) state.old.cursor }
    ensures { Asked (pop_whitespace (given_by parsed.now) position kept.now.leading kept.now.trailing kept.now.only) state.old state.new result }
{
    let waiting = is_waiting(state.cursor, parsed, position);
    pop_comments(state, parsed, position, kept.leading);
    let commented = waiting && kept.trailing;
    if commented || kept.only {
        let newlines = newlines(state, parsed, position);
        return Gap {
            newlines,
            commented,
        };
    }
    ignore_newlines(state, parsed, position);
    uncounted(position)
}

// Places the comments that start before the position, and goes there. It returns the gap up to the position.
pub fn pop_whitespace(state: &mut State<'_>, parsed: &Parsed<'_>, position: u32, kept: &Kept) -> Gap
    requires { Room (step_alone (pop_whitespace (given_by parsed.now) position kept.now.leading kept.now.trailing kept.now.only)) state.old.cursor }
    ensures { Asked (pop_whitespace (given_by parsed.now) position kept.now.leading kept.now.trailing kept.now.only) state.old state.new result }
{
    if kept.only || is_waiting(state.cursor, parsed, position) {
        return place_comments(state, parsed, position, kept);
    }
    state.move_to(position);
    uncounted(position)
}

// What `pop_whitespace` of the Rust returns: whether there is white space that is kept.
pub fn is_whitespace(gap: Gap) -> bool
    ensures { result ≡ whitespace gap }
{
    gap.commented || 0 < gap.newlines.count
}

// Places the comment at the front, if it starts at the first place that is not white space or is a newline.
pub fn pop_trailing_comment(state: &mut State<'_>, parsed: &Parsed<'_>)
    requires { Room (pop_trailing_comment (given_by parsed.now)) state.old.cursor }
    ensures { Does (pop_trailing_comment (given_by parsed.now)) state.old state.new }
{
    let Some(comment) = parsed.front(state.cursor.placed) else {
        return;
    };
    let reading = Reading {
        source: parsed.source,
        at: state.cursor.pos as usize,
    };
    let Some(place) = reading.next_something() else {
        return;
    };
    if comment.start as usize != place {
        return;
    }
    state.pop_front();
    push_comment(state, parsed, comment);
    state.move_to(comment.end);
}
