// The stored sizes and places. The bytes of an image are shown as text where they differ.
use formula_images::write_formula;
use refusals::Reason;
use stored_answers::difference::{Difference, Told, bytes_found, unless};
use stored_answers::numbers::Reader;
use stored_answers::report::count;

// Room for an image, and how often each answer was given.
#[derive(Drop)]
pub(crate) struct Buffers<'i, 'c> {
    pub image: &'i mut [u8],
    pub counts: &'c mut [usize],
}

// An image of so many bytes in an output with one byte less.
fn no_room_found(
    size: usize,
    place: usize,
    image: &mut [u8],
    bytes: usize,
) -> Result<(), Difference> {
    if bytes == 0 {
        return Err(Difference::Text);
    }
    let Some(out) = image.get_mut(..bytes - 1) else {
        return Err(Difference::Room);
    };
    match write_formula(size, place, out) {
        Ok(_) => Err(Difference::Number),
        Err(refused) => {
            let due = Reason::ImageNeeds.at(bytes);
            unless(refused.reason == due.reason, Difference::Number)?;
            unless(refused.place == due.place, Difference::Place)
        }
    }
}

// The next formula: its size and its place, and the number and the place of a refusal, or 0 and the image with its length before it.
pub(crate) fn replay_formula(
    answers: &mut Reader,
    buffers: &mut Buffers,
) -> Result<(), Difference> {
    let size = answers.eight();
    let at = answers.eight();
    let number = answers.short();
    let mut due = *answers;
    let place = answers.long();
    let told = Told { number, place };
    if number == 0 {
        answers.skip(place);
    }
    match write_formula(size, at, buffers.image) {
        Err(refused) => {
            count(buffers.counts, usize::from(refused.number()));
            told.refused(refused)
        }
        Ok(bytes) => {
            count(buffers.counts, 0);
            unless(number == 0, Difference::Number)?;
            let Some(written) = buffers.image.get(..bytes) else {
                return Err(Difference::Room);
            };
            bytes_found(written, &mut due, Difference::Text)?;
            no_room_found(size, at, buffers.image, bytes)
        }
    }
}
