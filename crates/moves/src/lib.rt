// Request 9: the moves of an image between versions 1 and 2.
#![tactic(auto)]

mod fault;
mod records;
mod way;

ghost use Rattle.std.specs.Prelude.{◌≡◌};
ghost use Rattle.refusals.specs.Reasons.{answer_of};
ghost use Rattle.moves.specs.Standing.{tree_due};
ghost use Rattle.moves.specs.Moved.{MovesForward, MovesBack};

use crate::fault::find_fault;
use crate::records::move_image;
use crate::way::Way;
use image::limits::MAX_BODY;
use image::sizes::HEADER;
use refusals::{Reason, Refused};

// Where the tree of an image stands that may be moved; or refuses it.
fn check_move(way: Way, source: &[u8], image: &[u8]) -> Result<usize, Refused>
    ensures { answer_of (λ n. n) result ≡ tree_due way source.now image.now }
{
    let doc = image::check_version(source, image, way.version_from(), false)?;
    match find_fault(way, image, doc.tree) {
        Some(at) => Err(Reason::StoredWidth.at(at)),
        None => Ok(doc.tree),
    }
}

// Writes an image of version 1 to the start of the output without the widths of its texts, as one of version 2, and answers how many bytes it has;
// or refuses it.
pub fn forward(source: &[u8], image: &[u8], out: &mut [u8]) -> Result<usize, Refused>
    ensures { MovesForward source.now image.now out.old result out.new }
{
    let tree = check_move(Way::Forward, source, image)?;
    let bytes = move_image(Way::Forward, image, tree, &mut []);
    if out.len() < bytes {
        return Err(Reason::ImageNeeds.at(bytes));
    }
    move_image(Way::Forward, image, tree, out);
    Ok(bytes)
}

// Writes an image of version 2 to the start of the output with the widths that are due to its texts, as one of version 1, and answers how many
// bytes it has; or refuses it.
pub fn back(source: &[u8], image: &[u8], out: &mut [u8]) -> Result<usize, Refused>
    ensures { MovesBack source.now image.now out.old result out.new }
{
    let tree = check_move(Way::Back, source, image)?;
    let bytes = move_image(Way::Back, image, tree, &mut []);
    if HEADER + MAX_BODY < bytes || out.len() < bytes {
        return Err(Reason::ImageNeeds.at(bytes));
    }
    move_image(Way::Back, image, tree, out);
    Ok(bytes)
}
