// How many bytes rows give, by rendering them into nothing.
ghost use Rattle.render_call.specs.Whole.{Counted, Passing};
ghost use Rattle.render_call.specs.ByCall.{of_call};

use crate::MAX_LISTED;
use crate::call::Call;
use marks::keep::{put_aside, put_back};
use rows::units::Bytes;

impl Call<'_> {
    // How many bytes the rows give: a dry run. The marks of the rows' numbers are put aside in the rows, in a place that these don't use,
    // and put back.
    pub(crate) fn bytes_needed(
        &self,
        store: &mut [u32],
        marks: &mut [u8],
        listed: &[u32; MAX_LISTED],
    ) -> Bytes
        requires { of_call Passing self.now listed.now store.old marks.old }
        ensures { of_call Counted self.now listed.now store.old marks.old result store.new marks.new }
    {
        let (from, stop) = (self.reads_from(listed), self.args.stop);
        put_aside(store, marks, self.state.in_use, from, stop);
        let halt = self.run(store, marks, &mut [], listed);
        put_back(store, marks, from, stop);
        halt.writing.at
    }
}
