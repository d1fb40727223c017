// The stored moves of images between versions. The bytes of an image are shown as text where they differ.
use moves::{back, forward};
use refusals::{Reason, Refused};
use stored_answers::difference::{Difference, Told, bytes_found, unless};
use stored_answers::numbers::Reader;
use stored_answers::parts::Parts;
use stored_answers::report::count;

// The way that is stored for a move forward; another is back.
const FORWARD: usize = 1;

// Room for an image that is moved, and for the one that is moved back, and how often each answer was given.
#[derive(Drop)]
pub(crate) struct Buffers<'m, 'b, 'c> {
    pub moved: &'m mut [u8],
    pub back: &'b mut [u8],
    pub counts: &'c mut [usize],
}

// The move that way.
fn moved(is_forward: bool, parts: Parts, out: &mut [u8]) -> Result<usize, Refused> {
    if is_forward {
        forward(parts.source, parts.image, out)
    } else {
        back(parts.source, parts.image, out)
    }
}

// An image of so many bytes in an output with one byte less.
fn no_room_found(
    is_forward: bool,
    parts: Parts,
    out: &mut [u8],
    bytes: usize,
) -> Result<(), Difference> {
    if bytes == 0 {
        return Err(Difference::Text);
    }
    let Some(out) = out.get_mut(..bytes - 1) else {
        return Err(Difference::Room);
    };
    match moved(is_forward, parts, out) {
        Ok(_) => Err(Difference::Number),
        Err(refused) => {
            let due = Reason::ImageNeeds.at(bytes);
            unless(refused.reason == due.reason, Difference::Number)?;
            unless(refused.place == due.place, Difference::Place)
        }
    }
}

// The image that is due, moved the other way, against the one that was moved.
fn returned_found(
    is_forward: bool,
    parts: Parts,
    mut image: Reader,
    due: &[u8],
    out: &mut [u8],
) -> Result<(), Difference> {
    let there = Parts {
        source: parts.source,
        image: due,
    };
    let Ok(n) = moved(!is_forward, there, out) else {
        return Err(Difference::Number);
    };
    match out.get(..n) {
        Some(written) => bytes_found(written, &mut image, Difference::Text),
        None => Err(Difference::Room),
    }
}

// The next move: which way, source and image, and the number and the place, or 0 and the image that is due with its length before it.
pub(crate) fn replay_move(answers: &mut Reader, buffers: &mut Buffers) -> Result<(), Difference> {
    let is_forward = answers.byte() == FORWARD;
    let source = answers.block();
    let image = *answers;
    let parts = Parts {
        source,
        image: answers.block(),
    };
    let number = answers.short();
    let mut due = *answers;
    let place = answers.long();
    if number == 0 {
        answers.skip(place);
    }
    let room = &mut *buffers.moved;
    let back_room = &mut *buffers.back;
    match moved(is_forward, parts, room) {
        Err(refused) => {
            count(buffers.counts, usize::from(refused.number()));
            Told { number, place }.refused(refused)
        }
        Ok(bytes) => {
            count(buffers.counts, 0);
            unless(number == 0, Difference::Number)?;
            let Some(written) = room.get(..bytes) else {
                return Err(Difference::Room);
            };
            bytes_found(written, &mut due, Difference::Text)?;
            returned_found(is_forward, parts, image, written, back_room)?;
            no_room_found(is_forward, parts, back_room, bytes)
        }
    }
}
