// Request 8: the rule of width that calls of both kinds choose. Refusal 20, what 12 asks of it, and what a text takes by it.
#![tactic(auto)]

ghost use Rattle.std.specs.Prelude.{◌≡◌, not};
ghost use Rattle.refusals.specs.Refusals.{any};
ghost use Rattle.refusals.specs.Reasons.{refusal_in, answer_of};
ghost use Rattle.cut_rule.specs.Tests.{rule_tests};
ghost use Rattle.cut_rule.specs.Parts.{rule_line};
ghost use Rattle.whole_run.specs.Parts.{other_rule};
ghost use Rattle.choices.specs.Columns.{columns_answer};

use refusals::{Reason, Refused};
use rows::units::Columns;
use widths::Edition;
use widths::rules::{SUPPLIED, UNICODE_16_0};

// Whether an image asks for another rule: version 2 is laid out by 16.0 alone.
fn is_other_rule(image: &[u8], rule: usize) -> bool
    ensures { result ≡ other_rule image.now rule }
{
    image.first() == Some(&2) && rule != UNICODE_16_0
}

// Refusal 20: whether a rule is one of the three, and none but that which the image asks for.
pub fn rule_chosen(image: &[u8], rule: usize) -> Result<(), Refused>
    ensures { refusal_in result ≡ rule_line (other_rule image.now rule) rule }
{
    if rule < SUPPLIED || UNICODE_16_0 < rule || is_other_rule(image, rule) {
        return Err(Reason::Rule.at(0));
    }
    Ok(())
}

// Whether a rule may be chosen where another is carried (0: none yet).
pub fn rule_fits(rule: usize, carried: usize) -> bool
    ensures { result ≡ not (any (rule_tests rule carried)) }
{
    carried == 0 || carried == rule
}

/// How many columns a text takes by a rule: where widths are supplied, those that it is told; or refuses the rule.
pub fn text_columns(text: &[u8], rule: usize, supplied: usize) -> Result<Columns, Refused>
    ensures { answer_of (λ c. c.0) result ≡ columns_answer rule supplied text.now }
{
    rule_chosen(&[], rule)?;
    let Some(edition) = Edition::of(rule) else {
        return Ok(Columns(supplied));
    };
    Ok(edition.text_columns(text))
}
