// Records of an image one after the other.
ghost use Rattle.comments.specs.AllIn.{AllIn};

use crate::parsed::Parsed;

/// The offsets of the records from `at` up to `to`.
#[derive(Drop)]
pub struct Records<'a> {
    pub(crate) parsed: &'a Parsed<'a>,
    pub(crate) at: usize,
    pub(crate) to: usize,
    pub(crate) ghost inside: { AllIn parsed.now.image.now at to },
}
