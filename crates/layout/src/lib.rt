// The layout functions: `State` of fmt.rs from `separated` on. Here are those of expressions, blocks and statements. They call each other,
// and the record's length falls at each call.
// kept: here and in the other files of this crate: each function has what it changes, what it reads, and where: the Rust's `self`, which has
// the first two, and its reference to a node. What is read stands beside what is changed, since in one struct each call would have to say
// again that what it reads is what it was; and with the offset it would be made anew at each call, which only moves the offset.
#![tactic(auto)]

mod blocks;
mod chains;
pub mod declarations;
pub mod forms;
mod idents;
mod imports;
mod kinds;
mod lists;
mod literals;
mod operators;
mod paths;
mod pieces;
mod types;
mod variants;

ghost use Rattle.std.specs.Prelude.{true, ◌+◌};
ghost use Rattle.image.specs.Kinds.{LIST, RECORD_FIELDS};
ghost use Rattle.ast.specs.Syntax.{return', match', function_call, access, list, bin_op, if_else, for, f_string, parentheses};
ghost use Rattle.tree.specs.At.{ExprAt, ExprsAt, EntriesAt, MaybeExprAt, PartsAt, BlockAt, StmtsAt, StmtAt};
ghost use Rattle.layout.specs.Layout.{expr_rule, parts_rule, block_rule, stmt_rule};
ghost use Rattle.layout.specs.Promises.{Has, LaidAs, HasAll, LaidAll};
ghost use Rattle.layout.specs.Elems.{EntryAt, entry_rule, ArmAt, arm_rule, grouped_rule, ListWith, args_rule, entries_rule};
ghost use Rattle.layout.specs.Forms.{two, three, four, expr_with, form_with, Of, form_rule, after_word, maybe_after, ClauseAt};
ghost use Rattle.layout.specs.Forms.{clause_rule, PartAt, part_rule, stmts_from, last_from, LetAt, let_rule};
ghost use Rattle.layout.specs.Ranks.{rank};
ghost use Rattle.layout.specs.Chains.{HasTail, LaidTail};

use crate::blocks::{
    after_stmt, arm_comma, before_stmt, block_start, is_empty, let_type, no_stmts, semicolon,
};
use crate::chains::{leftmost, operator, precedence};
use crate::forms::{BRACES, BRACKETS, ListForm, PARENS, Precedence, WrapStyle};
use crate::idents::pattern;
use crate::imports::import_path;
use crate::kinds::{Expr, FStringPart, Stmt};
use crate::lists::separated;
use crate::literals::{content, literal};
use crate::operators::{assign_word, return_word};
use crate::paths::{field_name, ident, path};
use crate::pieces::gap;
use acts::State;
use acts::leaves::Leaf;
use acts::parts::Branch;
use acts::words::Word;
use comments::parsed::Parsed;
use comments::{Kept, pop_trailing_comment};
use image::sizes::HEAD;

#[cycle(expr)]
pub(crate) fn expr(state: &mut State<'_>, parsed: &Parsed<'_>, at: usize)
    requires { Has ExprAt expr_rule parsed.now at state.old.cursor }
    ensures { LaidAs ExprAt expr_rule parsed.now at state.old state.new }
{
    expr_with_precedence(state, parsed, at, Precedence::Bottom);
}

// Each expression ends with `pop_trailing_comment`.
#[cycle(expr)]
fn expr_with_precedence(state: &mut State<'_>, parsed: &Parsed<'_>, at: usize, outer: Precedence)
    requires { Has ExprAt (expr_with (rank outer)) parsed.now at state.old.cursor }
    ensures { LaidAs ExprAt (expr_with (rank outer)) parsed.now at state.old state.new }
{
    form(state, parsed, at, outer);
    pop_trailing_comment(state, parsed);
}

// `expr_with_precedence`, its `match`: an expression by its form.
// kept: a choice by what stands in the tree, as in the Rust, and not among steps that a caller has.
#[cycle(expr)]
fn form(state: &mut State<'_>, parsed: &Parsed<'_>, at: usize, outer: Precedence)
    requires { Has ExprAt (form_with (rank outer)) parsed.now at state.old.cursor }
    ensures { LaidAs ExprAt (form_with (rank outer)) parsed.now at state.old state.new }
{
    match Expr::read(parsed, at) {
        Expr::Return => ret(state, parsed, at),
        Expr::Literal => literal(state, parsed, at + HEAD),
        Expr::Block => block(state, parsed, at + HEAD),
        Expr::Match => match_expr(state, parsed, at),
        Expr::FunctionCall => call(state, parsed, at, outer),
        Expr::Access => access(state, parsed, at, outer),
        Expr::Path => path(state, parsed, at + HEAD, outer < Precedence::Chain, true),
        Expr::Record => record(state, parsed, at + HEAD),
        Expr::TypedRecord => {
            path(state, parsed, at + HEAD, true, true);
            state.word(Word::Space);
            record(state, parsed, parsed.second(at))
        }
        Expr::List => list(state, parsed, at),
        Expr::Not => after(state, parsed, at + HEAD, Word::Not, Precedence::Unit),
        Expr::Assign => {
            path(state, parsed, at + HEAD, true, true);
            after(
                state,
                parsed,
                parsed.second(at),
                Word::Assign,
                Precedence::Bottom,
            )
        }
        Expr::CompoundAssign => {
            path(state, parsed, at + HEAD, true, true);
            after(
                state,
                parsed,
                parsed.third(at),
                assign_word(parsed, at),
                Precedence::Bottom,
            )
        }
        Expr::BinOp => binop(state, parsed, at),
        Expr::Negate => after(state, parsed, at + HEAD, Word::Minus, Precedence::Bottom),
        Expr::IfElse => if_else(state, parsed, at),
        Expr::While => cond(state, parsed, at + HEAD, Word::While),
        Expr::For => each(state, parsed, at),
        Expr::QuestionMark => {
            expr_with_precedence(state, parsed, at + HEAD, outer);
            state.word(Word::Question)
        }
        Expr::FString => fstr(state, parsed, at),
        Expr::Parentheses => par(state, parsed, at),
    }
}

// A word, and then the expression at `at`.
#[cycle(expr)]
fn after(state: &mut State<'_>, parsed: &Parsed<'_>, at: usize, k: Word, outer: Precedence)
    requires { Has ExprAt (after_word k (rank outer)) parsed.now at state.old.cursor }
    ensures { LaidAs ExprAt (after_word k (rank outer)) parsed.now at state.old state.new }
{
    state.word(k);
    expr_with_precedence(state, parsed, at, outer);
}

// The same, where the expression is there: the value of a `return`, the guard of an arm.
#[cycle(expr)]
fn maybe(state: &mut State<'_>, parsed: &Parsed<'_>, at: usize, k: Word)
    requires { Has MaybeExprAt (maybe_after k) parsed.now at state.old.cursor }
    ensures { LaidAs MaybeExprAt (maybe_after k) parsed.now at state.old state.new }
{
    if parsed.is_absent(at) {
        return;
    }
    after(state, parsed, at, k, Precedence::Bottom);
}

// `expr_with_precedence`: the condition of `if`, `while` and `for`, after its word, and the block after it.
#[cycle(expr)]
fn cond(state: &mut State<'_>, parsed: &Parsed<'_>, at: usize, k: Word)
    requires { Has ClauseAt (clause_rule k) parsed.now at state.old.cursor }
    ensures { LaidAs ClauseAt (clause_rule k) parsed.now at state.old state.new }
{
    state.word(k);
    let group = state.open(Branch::Group);
    let indent = state.open(Branch::Indent);
    expr(state, parsed, at);
    state.close(indent);
    state.close(group);
    state.word(Word::Space);
    block(state, parsed, parsed.past(at));
}

// `expr_with_precedence`, the arm of `Return`: `return`, `accept` and `reject`.
#[cycle(expr)]
fn ret(state: &mut State<'_>, parsed: &Parsed<'_>, at: usize)
    requires { Has (Of (two return')) (form_rule (two return') 0) parsed.now at state.old.cursor }
    ensures { LaidAs (Of (two return')) (form_rule (two return') 0) parsed.now at state.old state.new }
{
    state.word(return_word(parsed, at));
    maybe(state, parsed, at + (HEAD + 1), Word::Space);
}

// `r#match`
#[cycle(expr)]
fn match_expr(state: &mut State<'_>, parsed: &Parsed<'_>, at: usize)
    requires { Has (Of (three match')) (form_rule (three match') 0) parsed.now at state.old.cursor }
    ensures { LaidAs (Of (three match')) (form_rule (three match') 0) parsed.now at state.old state.new }
{
    let p = parsed.second(at);
    state.word(Word::Match);
    expr(state, parsed, at + HEAD);
    state.word(Word::Space);
    let form = ListForm {
        commas: false,
        style: WrapStyle::Wrap,
        ..BRACES
    };
    let one_arm = |inner: &mut State<'_>, q: usize|
        requires { Has ArmAt arm_rule parsed.now q inner.old.cursor }
        ensures { LaidAs ArmAt arm_rule parsed.entry.now q inner.old inner.new }
    { arm(inner, parsed, q) };
    separated(state, parsed, p, parsed.end(p), form, one_arm);
}

// `expr_with_precedence`, the arm of `List`.
#[cycle(expr)]
fn list(state: &mut State<'_>, parsed: &Parsed<'_>, at: usize)
    requires { Has (Of list) (form_rule list 0) parsed.now at state.old.cursor }
    ensures { LaidAs (Of list) (form_rule list 0) parsed.now at state.old state.new }
{
    let element = |inner: &mut State<'_>, p: usize|
        requires { Has ExprAt grouped_rule parsed.now p inner.old.cursor }
        ensures { LaidAs ExprAt grouped_rule parsed.entry.now p inner.old inner.new }
    { grouped(inner, parsed, p) };
    separated(state, parsed, at + HEAD, parsed.end(at), BRACKETS, element);
}

// The closure of a list: an element, in a group of its own.
#[cycle(expr)]
fn grouped(state: &mut State<'_>, parsed: &Parsed<'_>, at: usize)
    requires { Has ExprAt grouped_rule parsed.now at state.old.cursor }
    ensures { LaidAs ExprAt grouped_rule parsed.now at state.old state.new }
{
    let group = state.open(Branch::Group);
    expr(state, parsed, at);
    state.close(group);
}

// The closure of `r#match`: an arm.
#[cycle(expr)]
fn arm(state: &mut State<'_>, parsed: &Parsed<'_>, at: usize)
    requires { Has ArmAt arm_rule parsed.now at state.old.cursor }
    ensures { LaidAs ArmAt arm_rule parsed.now at state.old state.new }
{
    let p = parsed.second(at);
    let q = parsed.third(at);
    pattern(state, parsed, at + HEAD);
    maybe(state, parsed, p, Word::Guard);
    state.word(Word::FatArrow);
    expr(state, parsed, q);
    arm_comma(state, parsed, q);
}

// `expr_with_precedence`, the arm of `FunctionCall`, whose precedence is `Chain`. The numbers of its `Call` row are taken before its parts.
#[cycle(expr)]
fn call(state: &mut State<'_>, parsed: &Parsed<'_>, at: usize, outer: Precedence)
    requires { Has (Of (three function_call)) (form_rule (three function_call) (rank outer)) parsed.now at state.old.cursor }
    ensures { LaidAs (Of (three function_call)) (form_rule (three function_call) (rank outer)) parsed.now at state.old state.new }
{
    let p = parsed.second(at);
    if outer < Precedence::Chain {
        let call = state.open(Branch::Call);
        expr_with_precedence(state, parsed, at + HEAD, Precedence::Chain);
        let second = state.cursor.row;
        function_args(state, parsed, p);
        state.set_second(call, second);
        state.close(call);
        return;
    }
    expr_with_precedence(state, parsed, at + HEAD, Precedence::Chain);
    function_args(state, parsed, p);
}

// kept: like `params` but for the element; what is left to share is the call of `separated`.
#[cycle(expr)]
fn function_args(state: &mut State<'_>, parsed: &Parsed<'_>, at: usize)
    requires { Has (ListWith LIST ExprsAt) args_rule parsed.now at state.old.cursor }
    ensures { LaidAs (ListWith LIST ExprsAt) args_rule parsed.now at state.old state.new }
{
    let argument = |inner: &mut State<'_>, p: usize|
        requires { Has ExprAt expr_rule parsed.now p inner.old.cursor }
        ensures { LaidAs ExprAt expr_rule parsed.entry.now p inner.old inner.new }
    { expr(inner, parsed, p) };
    separated(state, parsed, at, parsed.end(at), PARENS, argument);
}

// `access`, and the arm of `Access`, whose precedence is `Chain`.
#[cycle(expr)]
fn access(state: &mut State<'_>, parsed: &Parsed<'_>, at: usize, outer: Precedence)
    requires { Has (Of (two access)) (form_rule (two access) (rank outer)) parsed.now at state.old.cursor }
    ensures { LaidAs (Of (two access)) (form_rule (two access) (rank outer)) parsed.now at state.old state.new }
{
    let p = parsed.second(at);
    if outer < Precedence::Chain {
        let group = state.open(Branch::Group);
        let indent = state.open(Branch::IndentNext);
        expr_with_precedence(state, parsed, at + HEAD, Precedence::Chain);
        field_name(state, parsed, p);
        state.close(indent);
        state.close(group);
        return;
    }
    expr_with_precedence(state, parsed, at + HEAD, Precedence::Chain);
    field_name(state, parsed, p);
}

#[cycle(expr)]
fn record(state: &mut State<'_>, parsed: &Parsed<'_>, at: usize)
    requires { Has (ListWith RECORD_FIELDS EntriesAt) entries_rule parsed.now at state.old.cursor }
    ensures { LaidAs (ListWith RECORD_FIELDS EntriesAt) entries_rule parsed.now at state.old state.new }
{
    let form = ListForm {
        style: WrapStyle::Spaced,
        ..BRACES
    };
    let named = |inner: &mut State<'_>, p: usize|
        requires { Has EntryAt entry_rule parsed.now p inner.old.cursor }
        ensures { LaidAs EntryAt entry_rule parsed.entry.now p inner.old inner.new }
    { entry(inner, parsed, p) };
    separated(state, parsed, at, parsed.end(at), form, named);
}

// The closure of `record`: a name and its value.
// kept: like `field` but for what comes behind the colon; a closure's two clauses would be longer than either.
#[cycle(expr)]
fn entry(state: &mut State<'_>, parsed: &Parsed<'_>, at: usize)
    requires { Has EntryAt entry_rule parsed.now at state.old.cursor }
    ensures { LaidAs EntryAt entry_rule parsed.now at state.old state.new }
{
    let p = parsed.second(at);
    ident(state, parsed, at + HEAD);
    state.word(Word::Colon);
    expr(state, parsed, p);
}

// `binop`: the chain of operators at `at`.
#[cycle(expr)]
fn binop(state: &mut State<'_>, parsed: &Parsed<'_>, at: usize)
    requires { Has (Of (four bin_op)) (form_rule (four bin_op) 0) parsed.now at state.old.cursor }
    ensures { LaidAs (Of (four bin_op)) (form_rule (four bin_op) 0) parsed.now at state.old state.new }
{
    let q = precedence(parsed, at);
    let mut ops = [0usize; 64];
    let left = leftmost(parsed, at, q, &mut ops);
    let group = state.open(Branch::Group);
    expr_with_precedence(state, parsed, left, q);
    state.push(Leaf::LineOrSpace);
    let indent = state.open(Branch::Indent);
    tail(state, parsed, at, left, &ops);
    state.close(indent);
    state.close(group);
}

// `binop`, its second loop: the operators from the one above `left` up to the one at `at`, each with its right operand.
#[cycle(expr)]
fn tail(state: &mut State<'_>, parsed: &Parsed<'_>, at: usize, left: usize, ops: &[usize; 64])
    requires { HasTail parsed.now at left ops.now state.old.cursor }
    ensures { LaidTail parsed.now at left ops.now state.old state.new }
{
    // kept: by the number: document 01 names an array of 64, and how many of its places are used follows from the two offsets, a head for each
    // operator.
    let mut first = true;
    for n in (0..(left - at) / HEAD).rev() {
        let p = ops[n];
        operator(state, parsed, parsed.second(p), first);
        expr(state, parsed, parsed.third(p));
        first = false;
    }
}

// `expr_with_precedence`, the arm of `IfElse`.
#[cycle(expr)]
fn if_else(state: &mut State<'_>, parsed: &Parsed<'_>, at: usize)
    requires { Has (Of (three if_else)) (form_rule (three if_else) 0) parsed.now at state.old.cursor }
    ensures { LaidAs (Of (three if_else)) (form_rule (three if_else) 0) parsed.now at state.old state.new }
{
    let p = parsed.third(at);
    cond(state, parsed, at + HEAD, Word::If);
    if parsed.is_absent(p) {
        return;
    }
    state.word(Word::Else);
    block(state, parsed, p);
}

// `expr_with_precedence`, the arm of `For`.
#[cycle(expr)]
fn each(state: &mut State<'_>, parsed: &Parsed<'_>, at: usize)
    requires { Has (Of (three for)) (form_rule (three for) 0) parsed.now at state.old.cursor }
    ensures { LaidAs (Of (three for)) (form_rule (three for) 0) parsed.now at state.old state.new }
{
    let p = parsed.second(at);
    state.word(Word::For);
    ident(state, parsed, at + HEAD);
    cond(state, parsed, p, Word::In);
}

// `expr_with_precedence`, the arm of `FString`.
#[cycle(expr)]
fn fstr(state: &mut State<'_>, parsed: &Parsed<'_>, at: usize)
    requires { Has (Of f_string) (form_rule f_string 0) parsed.now at state.old.cursor }
    ensures { LaidAs (Of f_string) (form_rule f_string 0) parsed.now at state.old state.new }
{
    gap(state, parsed, parsed.start(at), &Kept::AROUND_COMMENTS);
    state.word(Word::FQuote);
    parts(state, parsed, at + HEAD + HEAD, parsed.second(at));
    state.word(Word::Quote);
}

// The arm of `FString`, its loop: the parts, from `from` up to `to`.
#[cycle(expr)]
fn parts(state: &mut State<'_>, parsed: &Parsed<'_>, from: usize, to: usize)
    requires { HasAll PartsAt parts_rule parsed.now from to state.old.cursor }
    ensures { LaidAll PartsAt parts_rule parsed.now from to state.old state.new }
{
    for at in parsed.records(from, to) {
        part(state, parsed, at);
    }
}

// The arm of `FString`: a part, text, or an expression in braces.
#[cycle(expr)]
fn part(state: &mut State<'_>, parsed: &Parsed<'_>, at: usize)
    requires { Has PartAt part_rule parsed.now at state.old.cursor }
    ensures { LaidAs PartAt part_rule parsed.now at state.old state.new }
{
    if FStringPart::read(parsed, at) == FStringPart::String {
        content(state, parsed, at);
        return;
    }
    state.word(Word::BraceOpen);
    expr(state, parsed, at + HEAD);
    state.word(Word::BraceClose);
}

// `expr_with_precedence`, the arm of `Parentheses`.
#[cycle(expr)]
fn par(state: &mut State<'_>, parsed: &Parsed<'_>, at: usize)
    requires { Has (Of parentheses) (form_rule parentheses 0) parsed.now at state.old.cursor }
    ensures { LaidAs (Of parentheses) (form_rule parentheses 0) parsed.now at state.old state.new }
{
    gap(state, parsed, parsed.start(at), &Kept::AROUND_COMMENTS);
    state.word(Word::ParenOpen);
    expr(state, parsed, at + HEAD);
    state.word(Word::ParenClose);
}

#[cycle(expr)]
fn block(state: &mut State<'_>, parsed: &Parsed<'_>, at: usize)
    requires { Has BlockAt block_rule parsed.now at state.old.cursor }
    ensures { LaidAs BlockAt block_rule parsed.now at state.old state.new }
{
    let p = parsed.second(at);
    let none = no_stmts(parsed, at);
    let empty = is_empty(parsed, at);
    let group = state.open(Branch::Group);
    block_start(state, empty);
    let indent = state.open(Branch::Indent);
    stmts(state, parsed, at + HEAD + HEAD, p);
    last(state, parsed, p, none);
    let kept = Kept {
        leading: !empty,
        ..Kept::NONE
    };
    gap(state, parsed, parsed.end(at), &kept);
    state.close(indent);
    state.push(Leaf::Line);
    state.word(Word::BraceClose);
    state.close(group);
}

// `block`, its loop: the statements from `from` up to `to`.
#[cycle(expr)]
fn stmts(state: &mut State<'_>, parsed: &Parsed<'_>, from: usize, to: usize)
    requires { HasAll StmtsAt (stmts_from true) parsed.now from to state.old.cursor }
    ensures { LaidAll StmtsAt (stmts_from true) parsed.now from to state.old state.new }
{
    let mut first = true;
    for at in parsed.records(from, to) {
        before_stmt(state, parsed, parsed.start(at), first);
        stmt(state, parsed, at);
        after_stmt(state, parsed, parsed.end(at));
        first = false;
    }
}

// `block`: the last expression of a block, where it is there.
#[cycle(expr)]
fn last(state: &mut State<'_>, parsed: &Parsed<'_>, at: usize, first: bool)
    requires { Has MaybeExprAt (last_from first) parsed.now at state.old.cursor }
    ensures { LaidAs MaybeExprAt (last_from first) parsed.now at state.old state.new }
{
    if parsed.is_absent(at) {
        return;
    }
    before_stmt(state, parsed, parsed.start(at), first);
    expr(state, parsed, at);
    pop_trailing_comment(state, parsed);
}

// kept: a choice by what stands in the tree, as in the Rust.
#[cycle(expr)]
fn stmt(state: &mut State<'_>, parsed: &Parsed<'_>, at: usize)
    requires { Has StmtAt stmt_rule parsed.now at state.old.cursor }
    ensures { LaidAs StmtAt stmt_rule parsed.now at state.old state.new }
{
    match Stmt::read(parsed, at) {
        Stmt::Let => bind(state, parsed, at),
        Stmt::Import => {
            state.word(Word::Import);
            import_path(state, parsed, at + HEAD);
            state.word(Word::Semicolon)
        }
        Stmt::Expr => {
            let group = state.open(Branch::Group);
            expr(state, parsed, at + HEAD);
            semicolon(state, parsed, at + HEAD);
            state.close(group);
        }
    }
}

// `stmt`, the arm of `Let`.
#[cycle(expr)]
fn bind(state: &mut State<'_>, parsed: &Parsed<'_>, at: usize)
    requires { Has LetAt let_rule parsed.now at state.old.cursor }
    ensures { LaidAs LetAt let_rule parsed.now at state.old state.new }
{
    let p = parsed.second(at);
    let q = parsed.third(at);
    state.word(Word::Let);
    ident(state, parsed, at + HEAD);
    let_type(state, parsed, p);
    state.word(Word::Assign);
    expr(state, parsed, q);
    state.word(Word::Semicolon);
}
