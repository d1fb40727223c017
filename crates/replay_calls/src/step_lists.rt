// The stored lists of steps. The bytes of an image and of its steps are shown as text where they differ.
use refusals::Reason;
use stored_answers::difference::{Difference, Told, bytes_found, unless};
use stored_answers::numbers::Reader;
use stored_answers::report::count;
use writer::{steps_of, write_image};

// A source that each list fits, room for an image and for its steps, and how often each answer was given.
#[derive(Drop)]
pub(crate) struct Buffers<'l, 'i, 's, 'c> {
    pub source: &'l [u8],
    pub image: &'i mut [u8],
    pub steps: &'s mut [u8],
    pub counts: &'c mut [usize],
}

// An image of so many bytes in an output with one byte less.
fn no_room_found(list: &[u8], image: &mut [u8], bytes: usize) -> Result<(), Difference> {
    if bytes == 0 {
        return Err(Difference::Text);
    }
    let Some(out) = image.get_mut(..bytes - 1) else {
        return Err(Difference::Room);
    };
    match write_image(list, out) {
        Ok(_) => Err(Difference::Number),
        Err(refused) => {
            let due = Reason::ImageNeeds.at(bytes);
            unless(refused.reason == due.reason, Difference::Number)?;
            unless(refused.place == due.place, Difference::Place)
        }
    }
}

// The image, which the source fits, back to the list that is stored.
fn back_found(
    mut list: Reader,
    source: &[u8],
    image: &[u8],
    steps: &mut [u8],
) -> Result<(), Difference> {
    let Ok(n) = steps_of(source, image, steps) else {
        return Err(Difference::Text);
    };
    match steps.get(..n) {
        Some(steps) => bytes_found(steps, &mut list, Difference::Text),
        None => Err(Difference::Room),
    }
}

// An image of so many bytes against the one that is stored, and back to the list.
fn image_found(
    list: Reader,
    mut image: Reader,
    number: usize,
    bytes: usize,
    buffers: &mut Buffers,
) -> Result<(), Difference> {
    let source = buffers.source;
    let room = &mut *buffers.image;
    let steps = &mut *buffers.steps;
    let Some(written) = room.get_mut(..bytes) else {
        return Err(Difference::Room);
    };
    unless(number == 0, Difference::Number)?;
    bytes_found(written, &mut image, Difference::Text)?;
    back_found(list, source, written, steps)
}

// The next list: its steps, and the number and the place, or 0 and the image with its length before it.
pub(crate) fn replay_list(answers: &mut Reader, buffers: &mut Buffers) -> Result<(), Difference> {
    let list = *answers;
    let steps = answers.block();
    let number = answers.short();
    let image = *answers;
    let place = answers.long();
    let told = Told { number, place };
    if number == 0 {
        answers.skip(place);
    }
    match write_image(steps, buffers.image) {
        Err(refused) => {
            count(buffers.counts, usize::from(refused.number()));
            told.refused(refused)
        }
        Ok(bytes) => {
            count(buffers.counts, 0);
            image_found(list, image, number, bytes, buffers)?;
            no_room_found(steps, buffers.image, bytes)
        }
    }
}
