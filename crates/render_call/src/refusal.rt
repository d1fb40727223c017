// Refusals 20, 1, 2, 3, 11, 12, 15, 22 and 23: what the tests before the marks are counted say of a call.
ghost use Rattle.std.specs.Prelude.{◌≡◌, Ok};
ghost use Rattle.refusals.specs.Reasons.{refusal_in};
ghost use Rattle.whole_run.specs.Parts.{formed_line, render_image};
ghost use Rattle.rowcheck.specs.declared.needs.Needs.{Needs};
ghost use Rattle.render_call.specs.Calls.{to_state, early_refusal};
ghost use Rattle.render_call.specs.Whole.{NeedsOfCall};
ghost use Rattle.render_call.specs.ByCall.{of_call};

use crate::MAX_LISTED;
use crate::call::Call;
use choices::rule_chosen;
use image::{header_fits, source_fits};
use refusals::{Reason, Refused};
use rowcheck::check_rows;
use rowcheck::needs::Needs;
use rows::texts::Rows;
use widths::rules::SUPPLIED;

impl Call<'_> {
    // Refusal 2, which a call with supplied widths does not test.
    fn formed(&self) -> Result<(), Refused>
        ensures { refusal_in result ≡ formed_line self.now.args.rule self.now.source.now }
    {
        if self.args.rule == SUPPLIED {
            return Ok(());
        }
        text::utf8::check(self.source)
    }

    // Refusals 1, 2 and 3.
    fn image_refusal(&self) -> Result<(), Refused>
        ensures { refusal_in result ≡ render_image self.now.args.rule self.now.source.now self.now.image.now }
    {
        if !source_fits(self.source) {
            return Err(Reason::SourceTooLong.at(0));
        }
        self.formed()?;
        if !header_fits(self.image) {
            return Err(Reason::Header.at(0));
        }
        Ok(())
    }

    // Refusals 20, 1, 2, 3, 11, 12, 15, 22 and 23, the first that holds; or what the rows need.
    pub(crate) fn refusal(
        &self,
        store: &[u32],
        marks: &[u8],
        listed: &[u32; MAX_LISTED],
    ) -> Result<Needs, Refused>
        ensures refused { refusal_in result
            ≡ early_refusal self.now.source.now self.now.image.now self.now.args (to_state self.now.state listed.now) store.now marks.now }
        ensures needs { (n : Needs) → result ≡ Ok n → of_call NeedsOfCall self.now listed.now store.now n }
    {
        rule_chosen(self.image, self.args.rule)?;
        self.image_refusal()?;
        let rows = Rows {
            store,
            source: self.source,
            image: self.image,
        };
        let needs = check_rows(
            rows,
            self.reads_from(listed),
            self.args.stop,
            self.args.rule,
            self.margin(),
        )?;
        self.state_refusal(store, marks, listed)?;
        Ok(needs)
    }
}
