// Request 11: whether a tree's text would be read back as another tree, by the precedences of src/parser/precedence.rs.
#![tactic(auto)]

mod operators;
mod rules;
mod walk;

ghost use Rattle.readback.specs.ReadsBack.{ReadsBack};

use crate::walk::first_broken;
use refusals::Refused;

// What is said of a tree: it reads back the same, or the operand at an offset is the first that doesn't stand as it would be read.
#[derive(Clone, Copy, Debug, PartialEq, Eq)]
pub enum Verdict {
    Same,
    Differs(usize),
}

// Says whether the tree of an image reads back the same, or refuses the image as the reader does.
pub fn reads_back(source: &[u8], image: &[u8]) -> Result<Verdict, Refused>
    ensures { ReadsBack source.now image.now result }
{
    let doc = image::check(source, image)?;
    let first = first_broken(image, doc.tree);
    if first < image.len() {
        return Ok(Verdict::Differs(first));
    }
    Ok(Verdict::Same)
}
