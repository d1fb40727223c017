// The stored lists of calls, each with the world before it and after it.
use crate::calls::{Run, World};
use crate::states::{layout_state, render_state};
use render_call::MAX_LISTED;
use stored_answers::compare::{fill, is_next};
use stored_answers::difference::{Difference, bytes_found, unless};
use stored_answers::numbers::Reader;
use stored_answers::parts::Parts;

// The buffers of all lists.
#[derive(Drop)]
pub(crate) struct Buffers<'s, 'm, 'l, 't, 'c> {
    pub store: &'s mut [u32],
    pub marks: &'m mut [u8],
    pub listed: &'l mut [u32; MAX_LISTED],
    pub text: &'t mut [u8],
    pub counts: &'c mut [usize],
}

// The store against the one that is stored.
fn store_found(store: &[u32], answers: &mut Reader) -> Result<(), Difference> {
    let size = answers.long();
    let same = is_next(store, answers);
    answers.skip(4 * size);
    unless(size == store.len() && same, Difference::Rows)
}

// The joined texts.
fn text_found(text: &[u8], written: usize, answers: &mut Reader) -> Result<(), Difference> {
    match text.get(..written) {
        Some(text) => bytes_found(text, answers, Difference::Text),
        None => {
            let size = answers.long();
            answers.skip(size);
            Err(Difference::Room)
        }
    }
}

// The world after the calls, and the texts behind it.
fn world_found(world: &World, answers: &mut Reader) -> Result<(), Difference> {
    let run = world.run;
    let store = store_found(world.store, answers);
    let marks = bytes_found(world.marks, answers, Difference::Marks);
    let layout = unless(run.layout == layout_state(answers), Difference::Layout);
    let rendering = unless(
        render_state(answers).is(run.render, world.listed),
        Difference::Rendering,
    );
    let text = text_found(world.text, run.written, answers);
    run.found
        .and(store)
        .and(marks)
        .and(layout)
        .and(rendering)
        .and(text)
}

// A case for which the replay has no room; no later one is run.
fn no_room(answers: &mut Reader) -> Result<(), Difference> {
    answers.place = 0;
    Err(Difference::Room)
}

// The next case: source and image, the world before the calls, the calls, and the world after them.
pub(crate) fn replay_case(answers: &mut Reader, buffers: &mut Buffers) -> Result<(), Difference> {
    let parts = Parts {
        source: answers.block(),
        image: answers.block(),
    };
    let store = &mut *buffers.store;
    let Some(store) = store.get_mut(..answers.long()) else {
        return no_room(answers);
    };
    fill(store, answers);
    let marks = &mut *buffers.marks;
    let Some(marks) = marks.get_mut(..answers.long()) else {
        return no_room(answers);
    };
    fill(marks, answers);
    let laid = layout_state(answers);
    let rendered = render_state(answers);
    let listed = &mut *buffers.listed;
    rendered.fill(listed);
    let text = &mut *buffers.text;
    let counts = &mut *buffers.counts;
    let mut world = World {
        parts,
        store,
        marks,
        listed,
        text,
        counts,
        run: Run {
            layout: laid,
            render: rendered.state,
            written: 0,
            found: Ok(()),
        },
    };
    world.replay_calls(answers);
    world_found(&world, answers)
}
