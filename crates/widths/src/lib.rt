// Request 8: how many columns a code point and a text take, by two editions of Unicode.
#![tactic(auto)]

pub mod lookup;
pub mod rules;
pub mod sums;
mod tables;

ghost use Rattle.std.specs.Prelude.{◌≡◌, ◌≤◌, length};
ghost use Rattle.widths.specs.Widths.{text_width};
ghost use Rattle.widths.specs.Editions.{rule_width, table_of};
ghost use Rattle.widths.specs.Rules.{edition_of};

use crate::lookup::{Entry, width_in};
use crate::rules::{UNICODE_15_1, UNICODE_16_0};
use crate::sums::text_columns;
use crate::tables::{WIDTHS_151, WIDTHS_160};
use rows::units::Columns;

// An edition of Unicode.
#[derive(Clone, Copy, Debug, PartialEq, Eq)]
pub enum Edition {
    Unicode151,
    Unicode160,
}

impl Edition {
    // The edition that a rule measures by; none where the widths are supplied.
    #[tactic(auto, unfolding(crate::specs::Rules::edition_of))]
    pub fn of(rule: usize) -> Option<Edition>
        ensures { result ≡ edition_of rule }
    {
        match rule {
            UNICODE_15_1 => Some(Edition::Unicode151),
            UNICODE_16_0 => Some(Edition::Unicode160),
            _ => None,
        }
    }

    // The range table of an edition.
    pub fn table(self) -> &'static [Entry]
        ensures { result.now ≡ table_of self }
    {
        match self {
            Edition::Unicode151 => &WIDTHS_151,
            Edition::Unicode160 => &WIDTHS_160,
        }
    }

    // How many columns a code point takes.
    #[tactic(auto, using(crate::proofs::Editions::in_order, crate::proofs::Editions::looked))]
    pub fn code_columns(self, code: u32) -> Columns
        ensures { result.0 ≡ rule_width self code }
    {
        Columns(width_in(self.table(), code) as usize)
    }

    // How many columns a text takes: no more than it has bytes.
    #[tactic(auto, using(crate::proofs::Editions::usable, crate::proofs::Editions::measured))]
    pub fn text_columns(self, text: &[u8]) -> Columns
        ensures { (result.0 ≡ text_width (rule_width self) text.now) × (result.0 ≤ length text.now) }
    {
        text_columns(self.table(), text)
    }
}
