// Request 2: the figures of one file, counted with those before it.
#![tactic(auto)]

ghost use Rattle.std.specs.Prelude.{◌≡◌, false, length};
ghost use Rattle.tallies.specs.Tallies.{Within, tally_refusal};
ghost use Rattle.refusals.specs.Answers.{answer_by};
ghost use Rattle.widths.specs.Rules.{SUPPLIED};
ghost use Rattle.layout_call.specs.Steps.{RuleFits, Reads};
ghost use Rattle.layout_call.specs.ByFile.{of_file};
ghost use Rattle.figures.specs.Figures.{FILE_OUTPUT, occurs, count_result, count_answer, counted_answer, Counts};

use choices::rule_chosen;
use file::{REFERENCE_CHOICE, marks, rows, run_file};
use layout_call::accepted::Accepted;
use refusals::{Reason, Refused};
use tallies::lowest::reduced;
use tallies::sums::{add, tallies_fit};
use tallies::{Figures, Fraction, Tallies};

// What a file's run has for its text.
const OUTPUT: usize = 65536;

const NEWLINE: u8 = 0x0A;

// The mark of a group that wraps.
const WRAPPED: u8 = 1;

/// What a file that is counted gives: its figures, the new tallies, and wrapped over given of all.
#[derive(Clone, Copy, Debug, PartialEq, Eq)]
pub struct Counted {
    pub figures: Figures,
    pub tallies: Tallies,
    pub wrapped: Fraction,
}

// How often a byte stands in bytes.
fn occurrences(byte: u8, bytes: &[u8]) -> usize
    ensures { result ≡ occurs byte bytes.now }
{
    bytes.iter().filter(|&&b| b == byte).count()
}

// The bytes of its output.
fn output() -> [u8; OUTPUT]
    ensures { FILE_OUTPUT ≡ length result }
{
    [0; OUTPUT]
}

// Counts figures with those before, or refuses them with 14.
#[tactic(auto, using(crate::proofs::Counting::tallies_refused, crate::proofs::Counting::tallies_pass, crate::proofs::Counting::figures_counted))]
fn count_figures(t: Tallies, f: Figures) -> Result<Counted, Refused>
    requires { Within f }
    ensures { counted_answer result ≡ answer_by (tally_refusal t) (count_result f t) }
{
    if !tallies_fit(t) {
        return Err(Reason::Tallies.at(0));
    }
    let tallies = add(t, f);
    Ok(Counted {
        figures: f,
        tallies,
        wrapped: reduced(tallies.all.wrapped, tallies.all.given),
    })
}

// Counts a file that is accepted. The marks past those that its rows need stay cleared, so that all are looked at.
fn count_accepted(file: Accepted<'_>, t: Tallies) -> Result<Counted, Refused>
    requires rule { of_file RuleFits file SUPPLIED }
    requires read { of_file Reads file false }
    ensures { counted_answer result ≡ count_answer file.entry.parsed.source.now file.entry.parsed.image.now t }
{
    let mut store = rows();
    let mut used = marks();
    let mut out = output();
    let run = run_file(file, &mut store, &mut used, &mut out, REFERENCE_CHOICE)?;
    let size = run.text.bytes.0;
    let figures = Figures {
        bytes: size,
        newlines: occurrences(NEWLINE, &out[..size]),
        column: run.widest.0,
        given: run.text.numbers,
        wrapped: occurrences(WRAPPED, &used),
        placed: file.doc.comments - run.text.left,
        left: run.text.left,
    };
    count_figures(t, figures)
}

/// Counts a file with those before it, or refuses to: the file by what document 01 refuses, the tallies by 14.
pub fn count_file(source: &[u8], image: &[u8], t: Tallies) -> Result<Counted, Refused>
    ensures { Counts source.now image.now t result }
{
    rule_chosen(image, REFERENCE_CHOICE.rule)?;
    count_accepted(Accepted::check(source, image, false)?, t)
}
