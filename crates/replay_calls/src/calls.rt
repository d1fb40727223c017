// The calls of a list, one after the other.
ghost use Rattle.std.specs.Prelude.{ℕ};

use crate::states::{Listed, layout_state, render_state};
use layout_call::{Laid, LayoutArgs, LayoutState, layout_call};
use refusals::Refused;
use render_call::{MAX_LISTED, RenderArgs, RenderState, Written, render_call};
use rows::units::Columns;
use stored_answers::difference::{Difference, Told, unless};
use stored_answers::numbers::{Reader, past};
use stored_answers::parts::Parts;
use stored_answers::report::{count, number_of};

// How many answers a call can have: accepted, or a number up to 23. Those of rendering calls are counted behind those of layout calls, and those of
// layout calls by the archive entry behind both.
pub(crate) const ANSWERS: usize = 24;

// How many answers are counted before those of a layout call by the archive entry.
pub(crate) const BEFORE_ARCHIVE: usize = 48;

// What is stored of a call's entry, but for layout calls.
const RENDERING: usize = 1;

const ARCHIVE: usize = 2;

// The states that the calls so far left, the bytes that they wrote, and the first difference.
#[derive(Clone, Copy)]
pub(crate) struct Run {
    pub layout: LayoutState,
    pub render: RenderState,
    pub written: usize,
    pub found: Result<(), Difference>,
}

// A file whose calls are run: its parts, the store, the marks and the list of rows, room for the texts that the calls write, one after the other,
// how often each answer was given, and how far the calls came.
#[derive(Drop)]
pub(crate) struct World<'f, 's, 'm, 'l, 't, 'c> {
    pub parts: Parts<'f>,
    pub store: &'s mut [u32],
    pub marks: &'m mut [u8],
    pub listed: &'l mut [u32; MAX_LISTED],
    pub text: &'t mut [u8],
    pub counts: &'c mut [usize],
    pub run: Run,
}

// What is stored of a call's answer: number and place, and where it is accepted what it gives.
// kept: a number beside an Option, and no Result: of an accepted answer the place is stored too, and has to be 0.
#[derive(Clone, Copy)]
struct Stored<A> {
    told: Told,
    accepted: Option<A>,
}

// What is stored of an accepted rendering call: the state with its rows, the bytes written and the rows entered.
#[derive(Clone, Copy)]
struct Drawn<'a> {
    listed: Listed<'a>,
    bytes: usize,
    entered: usize,
}

fn read_told(answers: &mut Reader) -> Told {
    Told {
        number: answers.byte(),
        place: answers.eight(),
    }
}

fn read_laid(answers: &mut Reader) -> Stored<Laid> {
    let told = read_told(answers);
    let accepted = if told.number == 0 {
        Some(Laid {
            state: layout_state(answers),
            left: answers.long(),
        })
    } else {
        None
    };
    Stored { told, accepted }
}

fn read_drawn<'a>(answers: &mut Reader<'a>) -> Stored<Drawn<'a>> {
    let told = read_told(answers);
    let accepted = if told.number == 0 {
        Some(Drawn {
            listed: render_state(answers),
            bytes: answers.long(),
            entered: answers.long(),
        })
    } else {
        None
    };
    Stored { told, accepted }
}

// A layout call's answer against what is stored of it.
// kept: a `Result` taken apart, and no choice of a step.
fn laid_found(stored: Stored<Laid>, answer: Result<Laid, Refused>) -> Result<(), Difference> {
    match answer {
        Ok(laid) => {
            stored.told.found(0, 0)?;
            let Some(due) = stored.accepted else {
                return Ok(());
            };
            unless(laid.state == due.state, Difference::State)?;
            unless(laid.left == due.left, Difference::Count)
        }
        Err(refused) => stored.told.refused(refused),
    }
}

// A rendering call's answer, with the list as it leaves it.
// kept: a `Result` taken apart, and no choice of a step.
fn drawn_found(
    stored: Stored<Drawn>,
    answer: Result<Written, Refused>,
    list: &[u32; MAX_LISTED],
) -> Result<(), Difference> {
    match answer {
        Ok(written) => {
            stored.told.found(0, 0)?;
            let Some(due) = stored.accepted else {
                return Ok(());
            };
            unless(due.listed.is(written.state, list), Difference::State)?;
            unless(
                written.bytes.0 == due.bytes && written.entered == due.entered,
                Difference::Count,
            )
        }
        Err(refused) => stored.told.refused(refused),
    }
}

impl World<'_, '_, '_, '_, '_, '_> {
    // Runs a layout call.
    fn lay(&mut self, args: LayoutArgs, stored: Stored<Laid>) -> Result<(), Difference> {
        let parts = self.parts;
        let state = self.run.layout;
        let store = &mut *self.store;
        let answer = layout_call(parts.source, parts.image, store, state, args);
        let before = if args.archive { BEFORE_ARCHIVE } else { 0 };
        let counts = &mut *self.counts;
        count(counts, past(before, number_of(answer)));
        if let Ok(laid) = answer {
            self.run.layout = laid.state;
        }
        laid_found(stored, answer)
    }

    // Runs a rendering call with an output of so many bytes, behind the texts written so far.
    fn render(
        &mut self,
        args: RenderArgs,
        room: usize,
        stored: Stored<Drawn>,
    ) -> Result<(), Difference> {
        let parts = self.parts;
        let run = self.run;
        let store = &mut *self.store;
        let marks = &mut *self.marks;
        let listed = &mut *self.listed;
        let text = &mut *self.text;
        let Some(out) = text.get_mut(run.written..past(run.written, room)) else {
            return Err(Difference::Room);
        };
        let answer = render_call(
            parts.source,
            parts.image,
            store,
            marks,
            out,
            listed,
            run.render,
            args,
        );
        let counts = &mut *self.counts;
        count(counts, past(ANSWERS, number_of(answer)));
        if let Ok(written) = answer {
            self.run.render = written.state;
            self.run.written = past(run.written, written.bytes.0);
        }
        drawn_found(stored, answer, self.listed)
    }

    // Runs the next stored call: at which entry, where it stops, whether it closes or its output's size, its mode or width, its rule, of a rendering
    // call how many rows it may enter, and its answer.
    fn call(&mut self, answers: &mut Reader) -> Result<(), Difference> {
        let kind = answers.byte();
        let stop = answers.long();
        let argument = answers.long();
        let choice = answers.long();
        let rule = answers.eight();
        if kind == RENDERING {
            let args = RenderArgs {
                stop,
                allotment: answers.eight(),
                width: Columns(choice),
                rule,
            };
            let stored = read_drawn(answers);
            return self.render(args, argument, stored);
        }
        let args = LayoutArgs {
            stop,
            close: argument != 0,
            mode: choice,
            rule,
            archive: kind == ARCHIVE,
        };
        let stored = read_laid(answers);
        self.lay(args, stored)
    }

    // Runs the stored calls, of which the number comes first.
    pub(crate) fn replay_calls(&mut self, answers: &mut Reader) {
        for _ in 0..answers.short() {
            let found = self.call(answers);
            self.run.found = self.run.found.and(found);
        }
    }
}
