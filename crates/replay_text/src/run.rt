// How far the answers are compared.
use stored_answers::difference::{Difference, unless};
use stored_answers::numbers::{Reader, past};
use stored_answers::report::{Compared, told};

// The answers from the next on, and what was compared of those before.
#[derive(Drop)]
pub(crate) struct Run<'a> {
    pub answers: Reader<'a>,
    compared: Compared,
}

impl<'a> Run<'a> {
    pub(crate) fn new(answers: Reader<'a>) -> Run<'a> {
        Run {
            answers,
            compared: Compared::default(),
        }
    }

    // One more was compared; it is shown if it differs.
    pub(crate) fn compared(&mut self, rt: &impl Print, same: bool) {
        let case = past(self.compared.cases, 1);
        let differs = told(rt, case, unless(same, Difference::Text));
        self.compared.cases = case;
        self.compared.differ = past(self.compared.differ, differs);
    }

    pub(crate) fn end(&self) -> Compared {
        Compared {
            cut: self.answers.is_cut(),
            ..self.compared
        }
    }
}
