// The writer of images from a list of steps, and the steps of an image.
#![tactic(auto)]

mod list;
pub mod output;
mod pairs;
mod payload;
mod records;
pub mod step;
mod whole;

ghost use Rattle.writer.specs.Wrote.{Writes, Lists};

use crate::list::list_image;
use crate::whole::{measure, put_image};
use image::limits::MAX_BODY;
use image::sizes::HEADER;
use refusals::{Reason, Refused};

// Writes the image of a list of steps to the start of the output, and answers how many bytes it has; or refuses it.
pub fn write_image(steps: &[u8], out: &mut [u8]) -> Result<usize, Refused>
    ensures { Writes steps.now out.old result out.new }
{
    let m = measure(steps)?;
    if HEADER + MAX_BODY < m.bytes {
        return Err(Reason::ImageNeeds.at(m.bytes));
    }
    if out.len() < m.bytes {
        return Err(Reason::ImageNeeds.at(m.bytes));
    }
    put_image(steps, m.tree, m.bytes, out);
    Ok(m.bytes)
}

// Writes the steps of an image to the start of the output, and answers how many bytes they have; or refuses it.
pub fn steps_of(source: &[u8], image: &[u8], out: &mut [u8]) -> Result<usize, Refused>
    ensures { Lists source.now image.now out.old result out.new }
{
    let doc = image::check_version(source, image, 1, true)?;
    let bytes = list_image(image, doc.comments, doc.tree, &mut []);
    if out.len() < bytes {
        return Err(Reason::ImageNeeds.at(bytes));
    }
    list_image(image, doc.comments, doc.tree, out);
    Ok(bytes)
}
