// Request 14: the image of the formula of a size at a place.
#![tactic(auto)]

mod counts;
mod put;
mod shapes;

ghost use Rattle.formula_images.specs.Images.{WritesFormula};

use crate::counts::{LARGEST, count};
use crate::put::put_const;
use crate::shapes::Spot;
use refusals::{Reason, Refused};
use writer::write_image;

// How many bytes the steps of a formula have at most, and some more.
const MAX_STEPS: usize = 512;

// Writes the image of the formula at a place of those of a size to the start of the output, and answers how many bytes it has; or refuses it.
pub fn write_formula(size: usize, place: usize, out: &mut [u8]) -> Result<usize, Refused>
    ensures { WritesFormula size place out.old result out.new }
{
    if size < 1 || LARGEST < size {
        return Err(Reason::Formula.at(0));
    }
    if count(size) <= place {
        return Err(Reason::Formula.at(0));
    }
    let mut steps = [0; MAX_STEPS];
    let end = put_const(Spot { size, place }, &mut steps);
    write_image(&steps[..end], out)
}
