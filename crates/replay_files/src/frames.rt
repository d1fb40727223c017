// The stored frames.
use crate::pieces::pieces;
use crate::stored::read_stored;
use crate::whole::whole;
use refusals::Reason;
use stored_answers::difference::{Difference, Told};
use stored_answers::numbers::Reader;
use stored_answers::report::count;

// The program's buffers, and how often each answer was given, also by the archive entry.
#[derive(Drop)]
pub(crate) struct Buffers<'s, 'm, 'o, 'c, 'a> {
    pub store: &'s mut [u32],
    pub marks: &'m mut [u8],
    pub out: &'o mut [u8; 65536],
    pub counts: &'c mut [usize],
    pub archived: &'a mut [usize],
}

impl Buffers<'_, '_, '_, '_, '_> {
    // Fills the buffers anew, so that no run finds what another wrote.
    fn clear(&mut self) {
        self.store.fill(u32::MAX);
        self.marks.fill(u8::MAX);
        self.out.fill(u8::MAX);
    }
}

// Where the comments are what refuses a frame, what stands behind: the answer by the archive entry.
fn archived(
    told: Told,
    frame: &[u8],
    answers: &mut Reader,
    b: &mut Buffers,
) -> Result<(), Difference> {
    if told.number != usize::from(Reason::Comments.number()) {
        return Ok(());
    }
    let stored = read_stored(answers);
    b.clear();
    pieces(&stored, frame, b, true)?;
    let counts = &mut *b.archived;
    count(counts, stored.told.number);
    Ok(())
}

// The next frame, by declarations and by the whole run.
pub(crate) fn replay_frame(answers: &mut Reader, b: &mut Buffers) -> Result<(), Difference> {
    let frame = answers.block();
    let stored = read_stored(answers);
    b.clear();
    let by_pieces = pieces(&stored, frame, b, false);
    b.clear();
    let out = &mut *b.out;
    let counts = &mut *b.counts;
    let by_whole = whole(&stored, frame, out, counts);
    let by_archive = archived(stored.told, frame, answers, b);
    by_pieces.and(by_whole).and(by_archive)
}
