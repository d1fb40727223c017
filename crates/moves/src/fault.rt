// The first text of an image at which a move is turned down.
ghost use Rattle.std.specs.Prelude.{◌≡◌};
ghost use Rattle.moves.specs.Standing.{TreeAt, FirstFault};

use crate::records::payload_end;
use crate::way::Way;
use image::bytes::num32;
use image::kinds::Kind;
use image::sizes::{HEAD, LENGTH};

// The first text record at fault of the tree at `tree`, which reaches to the image's end. Each record that is no text is entered: the next place is
// its first child's.
pub(crate) fn find_fault(way: Way, image: &[u8], tree: usize) -> Option<usize>
    requires { TreeAt way image.now tree }
    ensures { FirstFault way image.now tree result }
{
    let mut at = tree;
    let mut shebang = false;
    // kept: as a loop: whether a place is the shebang's is known from the record before it.
    while at < image.len() {
        let n = num32(image, at);
        if n == 0 {
            shebang = false;
            at += LENGTH;
            continue;
        }
        let stop = at + LENGTH + n;
        let kind = image[at + LENGTH];
        if kind == Kind::Text as u8 && way.is_faulty(image, at + HEAD, stop, shebang) {
            return Some(at);
        }
        at = payload_end(image, at);
        shebang = kind == Kind::Tree as u8 && at < stop;
    }
    None
}
