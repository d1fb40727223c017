// The run of a call that nothing refuses before it: at once where the text surely has room, else after a dry run has counted the bytes.
ghost use Rattle.std.specs.Prelude.{◌≡◌};
ghost use Rattle.render_call.specs.Whole.{Draws, Passing, Fitting, Takes, Runnable, Made, HaltsOn, Halts, NeedsOfCall};
ghost use Rattle.render_call.specs.ByCall.{of_call, needed_of};

use crate::call::Call;
use crate::open::{list_rows, open_rows};
use crate::{Drawn, MAX_LISTED, RenderState, Written};
use marks::count::clear_marks;
use refusals::{Reason, Refused};
use render_by_rule::{Quota, run_by_rule};
use renderer::frames::Frames;
use renderer::run::Renderer;
use renderer::writing::Writing;
use rowcheck::needs::Needs;
use rows::units::{Bytes, Columns};

// Where a run halts: the text so far, the open rows and the next row; and how many rows it entered.
#[derive(Drop)]
pub struct Halt {
    pub writing: Writing,
    pub frames: Frames,
    pub next: usize,
    pub entered: usize,
}

impl Call<'_> {
    // A text with the state's pen, of which nothing is written yet.
    pub(crate) fn start_text(&self) -> Writing
        ensures { Takes self.now.state result }
    {
        Writing {
            pen: self.state.pen,
            at: Bytes(0),
            widest: Columns(0),
        }
    }

    // Goes on with a renderer that is made of the state, until the stop or until the allotment is spent: how many rows it entered.
    fn go_on(
        &self,
        renderer: &mut Renderer<'_>,
        store: &mut [u32],
        listed: &[u32; MAX_LISTED],
    ) -> usize
        requires runnable { of_call Runnable self.now listed.now store.old }
        requires made { of_call Made self.now listed.now store.old renderer.old }
        ensures { of_call HaltsOn self.now listed.now store.old renderer.old result store.new renderer.new }
    {
        let quota = Quota {
            from: self.reads_from(listed),
            stop: self.args.stop,
            allotment: self.args.allotment,
            rule: self.args.rule,
        };
        run_by_rule(renderer, store, self.source, self.image, quota)
    }

    // Renders from where the state stopped, into an output that may be too small, until the stop or until the allotment is spent.
    pub(crate) fn run(
        &self,
        store: &mut [u32],
        marks: &mut [u8],
        out: &mut [u8],
        listed: &[u32; MAX_LISTED],
    ) -> Halt
        requires { of_call Runnable self.now listed.now store.old }
        ensures { of_call Halts self.now listed.now store.old marks.old out.old result store.new marks.new out.new }
    {
        let mut renderer = Renderer {
            marks,
            out,
            max: self.args.width,
            writing: self.start_text(),
            frames: Frames::new(),
            next: self.state.row,
            mark: 0,
        };
        let rows = &listed[..self.state.listed_rows];
        open_rows(&mut renderer.frames, store, rows, self.state.row);
        let entered = self.go_on(&mut renderer, store, listed);
        Halt {
            writing: renderer.writing,
            frames: renderer.frames,
            next: renderer.next,
            entered,
        }
    }

    // Renders rows whose text has room, and which need so many marks.
    // kept: here and below store, marks, output and list are changed and `Call` is only read; in one value each promise would have to say what of it
    // stays.
    fn write_rows(
        &self,
        store: &mut [u32],
        marks: &mut [u8],
        out: &mut [u8],
        listed: &mut [u32; MAX_LISTED],
        needed: usize,
    ) -> Result<Drawn, Refused>
        requires { of_call Fitting self.now listed.old store.old marks.old out.old × (needed ≡ needed_of self.now listed.old store.old) }
        ensures { of_call Draws self.now listed.old store.old marks.old out.old listed.old result store.new marks.new out.new listed.new }
    {
        clear_marks(marks, self.state.in_use, needed);
        let halt = self.run(store, marks, out, listed);
        list_rows(listed, &halt.frames);
        let left = RenderState {
            pen: halt.writing.pen,
            in_use: self.state.in_use.max(needed),
            row: halt.next,
            width: self.args.width,
            rule: self.args.rule,
            listed_rows: halt.frames.depth,
        };
        Ok(Drawn {
            written: Written {
                state: left,
                bytes: halt.writing.at,
                entered: halt.entered,
            },
            widest: halt.writing.widest,
        })
    }

    // Counts the bytes first, and renders the rows or refuses with 10.
    fn render_counted(
        &self,
        store: &mut [u32],
        marks: &mut [u8],
        out: &mut [u8],
        listed: &mut [u32; MAX_LISTED],
        needed: usize,
    ) -> Result<Drawn, Refused>
        requires { of_call Passing self.now listed.old store.old marks.old × (needed ≡ needed_of self.now listed.old store.old) }
        ensures { of_call Draws self.now listed.old store.old marks.old out.old listed.old result store.new marks.new out.new listed.new }
    {
        let size = self.bytes_needed(store, marks, listed);
        if out.len() < size.0 {
            return Err(Reason::BytesNeeded.at(size.0));
        }
        self.write_rows(store, marks, out, listed, needed)
    }

    // Renders what nothing refuses before the run, or refuses it with 10. Where no row is listed and the output has as many bytes as the rows give at
    // most, nothing is counted.
    pub(crate) fn render_accepted(
        &self,
        store: &mut [u32],
        marks: &mut [u8],
        out: &mut [u8],
        listed: &mut [u32; MAX_LISTED],
        needs: Needs,
    ) -> Result<Drawn, Refused>
        requires passing { of_call Passing self.now listed.old store.old marks.old }
        requires needs { of_call NeedsOfCall self.now listed.old store.old needs }
        ensures { of_call Draws self.now listed.old store.old marks.old out.old listed.old result store.new marks.new out.new listed.new }
    {
        if self.state.listed_rows == 0 && needs.bytes.0 <= out.len() {
            return self.write_rows(store, marks, out, listed, needs.marks);
        }
        self.render_counted(store, marks, out, listed, needs.marks)
    }
}
