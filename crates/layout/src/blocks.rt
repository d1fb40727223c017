// The parts of `block` and `stmt` that lay no statement below them.
ghost use Rattle.std.specs.Prelude.{◌≡◌, ◌+◌};
ghost use Rattle.image.specs.Read.{stop_at, kind_at};
ghost use Rattle.acts.specs.Laid.{Room};
ghost use Rattle.acts.specs.Does.{Does};
ghost use Rattle.comments.specs.Parsed.{given_by};
ghost use Rattle.layout.specs.Layout.{before_stmt, after_stmt, block_start, let_type};
ghost use Rattle.layout.specs.Promises.{Has, LaidAs};
ghost use Rattle.layout.specs.Numbers.{HasKind, expr_number};
ghost use Rattle.comments.specs.Record.{InImage, Whole};
ghost use Rattle.layout.specs.Forms.{MaybeTypeAt, no_stmts_at, is_empty_at, is_braced, arm_comma_rule, semicolon_rule};

use crate::kinds::Expr;
use crate::pieces::gap;
use crate::types::type_expr;
use acts::State;
use acts::leaves::Leaf;
use acts::words::Word;
use comments::parsed::Parsed;
use comments::{Kept, pop_trailing_comment};
use image::sizes::HEAD;

// Whether the block at `at` has no statements.
pub(crate) fn no_stmts(parsed: &Parsed<'_>, at: usize) -> bool
    requires { Whole parsed.now.image.now (at + 13) }
    ensures { result ≡ no_stmts_at parsed.now.image.now at }
{
    parsed.second(at) == at + HEAD + HEAD
}

// Whether it has no last expression either.
pub(crate) fn is_empty(parsed: &Parsed<'_>, at: usize) -> bool
    requires whole { Whole parsed.now.image.now (at + 13) }
    requires in_image { InImage parsed.now.image.now (stop_at parsed.now.image.now (at + 13)) }
    ensures { result ≡ is_empty_at parsed.now.image.now at }
{
    no_stmts(parsed, at) && parsed.is_absent(parsed.second(at))
}

// How a block starts.
pub(crate) fn block_start(state: &mut State<'_>, empty: bool)
    requires { Room (block_start empty) state.old.cursor }
    ensures { Does (block_start empty) state.old state.new }
{
    state.word(Word::BraceOpen);
    state.push(Leaf::Line);
    if empty {
        return;
    }
    state.push(Leaf::WrapParent);
}

// What comes before a statement, or before the last expression.
pub(crate) fn before_stmt(state: &mut State<'_>, parsed: &Parsed<'_>, position: u32, first: bool)
    requires { Room (before_stmt (given_by parsed.now) first position) state.old.cursor }
    ensures { Does (before_stmt (given_by parsed.now) first position) state.old state.new }
{
    if first {
        gap(state, parsed, position, &Kept::AFTER_COMMENTS);
        state.push(Leaf::Line);
        return;
    }
    gap(state, parsed, position, &Kept::ALL);
    state.push(Leaf::Line);
}

// What comes after a statement.
pub(crate) fn after_stmt(state: &mut State<'_>, parsed: &Parsed<'_>, position: u32)
    requires { Room (after_stmt (given_by parsed.now) position) state.old.cursor }
    ensures { Does (after_stmt (given_by parsed.now) position) state.old state.new }
{
    gap(state, parsed, position, &Kept::NONE);
    pop_trailing_comment(state, parsed);
}

// The comma after an arm, unless its body, which is at `at`, is a block.
pub(crate) fn arm_comma(state: &mut State<'_>, parsed: &Parsed<'_>, at: usize)
    requires has_kind { HasKind 50 70 parsed.now.image.now at }
    requires room { Room (arm_comma_rule (kind_at parsed.now.image.now at)) state.old.cursor }
    ensures { Does (arm_comma_rule (kind_at parsed.now.image.now at)) state.old state.new }
{
    if Expr::read(parsed, at) == Expr::Block {
        return;
    }
    state.word(Word::Comma);
}

// Whether an expression ends with a brace.
// kept: one `matches!`, over another enum than `has_parts` of renderer.
fn is_braced(expr: Expr) -> bool
    ensures { result ≡ is_braced (expr_number expr) }
{
    matches!(
        expr,
        Expr::Block | Expr::Match | Expr::IfElse | Expr::While | Expr::For
    )
}

// The semicolon after an expression, which is at `at`, unless it ends with a brace.
// kept: a fact about the record at `at`, another at each call: no value has it for good. So it is in `arm_comma`, and in `read` of the enums.
pub(crate) fn semicolon(state: &mut State<'_>, parsed: &Parsed<'_>, at: usize)
    requires has_kind { HasKind 50 70 parsed.now.image.now at }
    requires room { Room (semicolon_rule (kind_at parsed.now.image.now at)) state.old.cursor }
    ensures { Does (semicolon_rule (kind_at parsed.now.image.now at)) state.old state.new }
{
    if is_braced(Expr::read(parsed, at)) {
        return;
    }
    state.word(Word::Semicolon);
}

// The type of a `let`, where it is there.
pub(crate) fn let_type(state: &mut State<'_>, parsed: &Parsed<'_>, at: usize)
    requires { Has MaybeTypeAt let_type parsed.now at state.old.cursor }
    ensures { LaidAs MaybeTypeAt let_type parsed.now at state.old state.new }
{
    if parsed.is_absent(at) {
        return;
    }
    state.word(Word::Colon);
    type_expr(state, parsed, at);
}
