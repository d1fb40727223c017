// Refusal 11: the check of rows before they are rendered.
#![tactic(auto)]

pub mod needs;
pub mod weighing;
mod whole;

ghost use Rattle.std.specs.Prelude.{◌≡◌, ◌&&◌, ◌*◌, ◌-◌, ◌≤◌, ◌<◌, true, false, length, eqb, None, Ok};
ghost use Rattle.rows.specs.Kinds.{number_of};
ghost use Rattle.rows.specs.Places.{KIND, AFTER, WIDTH, PLACES};
ghost use Rattle.rows.specs.Limits.{MAX_ROWS};
ghost use Rattle.rows.specs.View.{cell, view_of};
ghost use Rattle.renderer_rules.specs.Check.{reaches, has_two, is_split, text_fits, places_fit, row_fits_of, wrong_row_of};
ghost use Rattle.renderer_rules.specs.Check.{wrong_place, wrong_place_by};
ghost use Rattle.rowcheck.specs.Shape.{is_leaf, no_numbers, no_text, shape_fits};
ghost use Rattle.rowcheck.specs.Torn.{up_to};
ghost use Rattle.rowcheck.specs.Needs.{wrong_in, NeedsOf, Weighed};
ghost use Rattle.rowcheck.specs.declared.needs.Needs.{Needs};
ghost use Rattle.renderer_rules.specs.Limits.{START_MARGIN};
ghost use Rattle.refusals.specs.Refusals.{refuse_at};
ghost use Rattle.refusals.specs.Reasons.{refusal_in};

use crate::needs::Needs;
use crate::weighing::weigh_rows;
use crate::whole::first_torn;
use refusals::{Reason, Refused};
use rows::kinds::Kind;
use rows::limits::{MAX_DEPTH, MAX_ROWS};
use rows::origins::Origin;
use rows::places::{AFTER, NUMBER, ORIGIN, PLACES, SECOND, SECOND_NUMBER, SIZE, START, WIDTH};
use rows::store::{place, row_kind};
use rows::texts::Rows;
use widths::rules::SUPPLIED;

// Whether row b is reached from row a, row after row.
// kept: a loop, since each next row is read from the last one. An iterator would have this loop in it, and its invariant, for this use alone.
fn is_reached(store: &[u32], a: usize, b: usize, steps: usize) -> bool
    requires { (a ≤ b) × ((b * PLACES ≤ length store.now) × ((b ≤ MAX_ROWS) × (b - a ≤ steps))) }
    ensures { result ≡ reaches steps (view_of store.now) a b }
{
    let mut row = a;
    while row < b {
        let next = place(store, row, AFTER);
        if next <= row || b < next {
            return false;
        }
        row = next;
    }
    true
}

// A row, and the row after its last part, which is behind it and not past the store.
#[derive(Clone, Copy)]
pub(crate) struct Block<'a> {
    pub(crate) rows: Rows<'a>,
    pub(crate) row: usize,
    pub(crate) after: usize,
    pub ghost inside: { (row < after) × ((after * PLACES ≤ length rows.store.now) × ((after ≤ MAX_ROWS) × (after ≡ cell rows.store.now row AFTER))) },
}

impl Block<'_> {
    // Whether the parts of an `IfWrap` are two.
    #[tactic(auto, unfolding(rows::specs::View::view_of))]
    fn has_two(&self) -> bool
        ensures { result ≡ has_two (view_of self.now.rows.store.now) self.now.row }
    {
        let second = place(self.rows.store, self.row, SECOND);
        self.row + 1 < second
            && second < self.after
            && place(self.rows.store, self.row + 1, AFTER) == second
            && place(self.rows.store, second, AFTER) == self.after
    }

    // Whether the second part of a `Call` starts at a part or at the end.
    #[tactic(auto, unfolding(rows::specs::View::view_of))]
    fn is_split(&self) -> bool
        ensures { result ≡ is_split (view_of self.now.rows.store.now) self.now.row }
    {
        let second = place(self.rows.store, self.row, SECOND);
        second == self.after
            || self.row < second
                && second < self.after
                && is_reached(self.rows.store, self.row + 1, second, self.after - self.row)
    }

    // Whether the text is inside its origin.
    fn text_fits(&self) -> bool
        ensures { result ≡ text_fits self.now.rows.source.now self.now.rows.image.now self.now.rows.store.now self.now.row }
    {
        let store = self.rows.store;
        let end = place(store, self.row, START) + place(store, self.row, SIZE);
        match Origin::of(place(store, self.row, ORIGIN)) {
            Some(origin) => end <= origin.text(self.rows.source, self.rows.image).len(),
            None => false,
        }
    }

    // Whether the places of the numbers and of the second part are 0: so is their sum then, which is one test.
    fn has_no_numbers(&self) -> bool
        ensures { result ≡ no_numbers self.now.rows.store.now self.now.row }
    {
        let store = self.rows.store;
        let number = place(store, self.row, NUMBER);
        let second_number = place(store, self.row, SECOND_NUMBER);
        number + second_number + place(store, self.row, SECOND) == 0
    }

    // Whether the places of a text and of its width are 0.
    fn has_no_text(&self) -> bool
        ensures { result ≡ no_text self.now.rows.store.now self.now.row }
    {
        let store = self.rows.store;
        let text = place(store, self.row, ORIGIN)
            + place(store, self.row, START)
            + place(store, self.row, SIZE);
        text + place(store, self.row, WIDTH) == 0
    }

    // Whether the text is inside its origin, and has no width.
    fn has_bare_text(&self) -> bool
        ensures { result
            ≡ (eqb (cell self.now.rows.store.now self.now.row WIDTH) 0
            && text_fits self.now.rows.source.now self.now.rows.image.now self.now.rows.store.now self.now.row) }
    {
        place(self.rows.store, self.row, WIDTH) == 0 && self.text_fits()
    }

    // Whether a row that may have no parts is right.
    #[tactic(auto, unfolding(renderer_rules::specs::Check::parts_fit, renderer_rules::specs::Check::places_fit, rows::specs::View::view_of))]
    fn leaf_fits(&self, kind: Kind) -> bool
        requires leaf { is_leaf (number_of kind) ≡ true }
        requires kind { cell self.now.rows.store.now self.now.row KIND ≡ number_of kind }
        ensures { result ≡ shape_fits self.now.rows.source.now self.now.rows.image.now self.now.rows.store.now self.now.row }
    {
        if self.after != self.row + 1 || !self.has_no_numbers() {
            return false;
        }
        match kind {
            Kind::Str => self.text_fits(),
            Kind::Comment | Kind::Ascii => self.has_bare_text(),
            Kind::WrapParent
            | Kind::Line
            | Kind::EmptyLine
            | Kind::LineOrSpace
            | Kind::Group
            | Kind::Indent
            | Kind::IndentNext
            | Kind::IfWrap
            | Kind::Call => self.has_no_text(),
        }
    }

    // The same, not tested where all rows are right.
    pub(crate) fn leaf_passes(&self, kind: Kind, test: bool) -> bool
        requires leaf { is_leaf (number_of kind) ≡ true }
        requires kind { cell self.now.rows.store.now self.now.row KIND ≡ number_of kind }
        requires right { test ≡ false
            → shape_fits self.now.rows.source.now self.now.rows.image.now self.now.rows.store.now self.now.row ≡ true }
        ensures { result ≡ shape_fits self.now.rows.source.now self.now.rows.image.now self.now.rows.store.now self.now.row }
    {
        !test || self.leaf_fits(kind)
    }

    // Whether a row that may have parts is right.
    #[tactic(auto, unfolding(renderer_rules::specs::Check::parts_fit, renderer_rules::specs::Check::places_fit, rows::specs::View::view_of))]
    fn node_fits(&self, kind: Kind) -> bool
        requires node { is_leaf (number_of kind) ≡ false }
        requires kind { cell self.now.rows.store.now self.now.row KIND ≡ number_of kind }
        ensures { result ≡ shape_fits self.now.rows.source.now self.now.rows.image.now self.now.rows.store.now self.now.row }
    {
        if !self.has_no_text() {
            return false;
        }
        let second_number = place(self.rows.store, self.row, SECOND_NUMBER);
        match kind {
            Kind::Group => second_number + place(self.rows.store, self.row, SECOND) == 0,
            Kind::IfWrap => second_number == 0 && self.has_two(),
            Kind::Call => self.is_split(),
            Kind::Indent
            | Kind::IndentNext
            | Kind::WrapParent
            | Kind::Comment
            | Kind::Str
            | Kind::Ascii
            | Kind::Line
            | Kind::EmptyLine
            | Kind::LineOrSpace => self.has_no_numbers(),
        }
    }

    // The same, not tested where all rows are right.
    pub(crate) fn node_passes(&self, kind: Kind, test: bool) -> bool
        requires node { is_leaf (number_of kind) ≡ false }
        requires kind { cell self.now.rows.store.now self.now.row KIND ≡ number_of kind }
        requires right { test ≡ false
            → shape_fits self.now.rows.source.now self.now.rows.image.now self.now.rows.store.now self.now.row ≡ true }
        ensures { result ≡ shape_fits self.now.rows.source.now self.now.rows.image.now self.now.rows.store.now self.now.row }
    {
        !test || self.node_fits(kind)
    }
}

// The first row from `from` up to `stop` that is not right, whatever its text holds, or what they need; row 0 where the stop is past the store or
// the limit.
fn weigh_to(rows: Rows<'_>, from: usize, stop: usize, margin: usize) -> Result<Needs, usize>
    requires { margin ≤ START_MARGIN }
    ensures { Weighed rows.entry.store.now from stop margin
        (wrong_place rows.entry.source.now rows.entry.image.now rows.entry.store.now from stop) result }
{
    if MAX_ROWS < stop || rows.store.len() < stop * PLACES {
        return Err(0);
    }
    weigh_rows(rows, from, stop, margin, true)
}

// Up to which row the second pass goes: the row that the first found wrong, or the stop.
fn weighed_to(weighed: Result<Needs, usize>, stop: usize) -> usize
    ensures { result ≡ up_to (wrong_in weighed) stop }
{
    match weighed {
        Ok(_) => stop,
        Err(row) => row,
    }
}

// The same by a rule of widths: where these are not supplied, a second pass looks at the texts of the rows before the one that is wrong.
fn weigh_by(
    rows: Rows<'_>,
    from: usize,
    stop: usize,
    rule: usize,
    margin: usize,
) -> Result<Needs, usize>
    requires { margin ≤ START_MARGIN }
    ensures { Weighed rows.entry.store.now from stop margin
        (wrong_place_by rule rows.entry.source.now rows.entry.image.now rows.entry.store.now from stop) result }
{
    let weighed = weigh_to(rows, from, stop, margin);
    if rule == SUPPLIED {
        return weighed;
    }
    match first_torn(rows, from, weighed_to(weighed, stop)) {
        Some(row) => Err(row),
        None => weighed,
    }
}

// Refusal 11 by a rule of widths: whether the rows from `from` up to `stop` may be rendered, and what they need then, where lines start `margin`
// steps in; place 0 for the stop.
pub fn check_rows(
    rows: Rows<'_>,
    from: usize,
    stop: usize,
    rule: usize,
    margin: usize,
) -> Result<Needs, Refused>
    requires { margin ≤ START_MARGIN }
    ensures refused { refusal_in result ≡ refuse_at (wrong_place_by rule rows.entry.source.now rows.entry.image.now rows.entry.store.now from stop) 11 }
    ensures needs { (n : Needs) → result ≡ Ok n → NeedsOf rows.entry.store.now from stop margin n }
{
    match weigh_by(rows, from, stop, rule, margin) {
        Ok(needs) => Ok(needs),
        Err(row) => Err(Reason::Rows.at(row)),
    }
}
