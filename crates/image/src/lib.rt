// Module 2: the reader of tree images. It accepts a source and an image, or refuses them with a number and a place.
#![tactic(auto)]

pub mod bytes;
mod comments;
pub mod grammar;
pub mod kinds;
pub mod limits;
mod reader;
mod records;
pub mod sizes;
pub mod width;

ghost use Rattle.std.specs.Prelude.{◌≡◌, ◌≤◌, length};
ghost use Rattle.image.specs.Read.{any_version, width_bytes, source_fits, header_fits, read_tree, read_image, read_version, read_by, outcome, Checks};
ghost use Rattle.refusals.specs.Reasons.{answer_of};

use bytes::{num16, num32};
use comments::read_comments;
use grammar::Due;
use limits::{MAX_BODY, MAX_RECORDS_DEEP, MAX_SOURCE};
use reader::Reader;
use refusals::{Reason, Refused};
use sizes::HEADER;

// A source and an image that are accepted: how many comments there are, and where the tree stands.
#[derive(Clone, Copy, Debug, PartialEq, Eq)]
pub struct Document {
    pub comments: usize,
    pub tree: usize,
}

// Whether the source is no longer than 65,536 bytes: refusal 1 where it is.
#[tactic(auto, unfolding(crate::specs::Read::source_fits))]
pub fn source_fits(source: &[u8]) -> bool
    ensures { result ≡ source_fits source.now }
{
    source.len() <= MAX_SOURCE
}

// Whether the image has a header that is right: refusal 3 where it hasn't.
#[tactic(auto, unfolding(crate::specs::Read::header))]
pub fn header_fits(image: &[u8]) -> bool
    ensures { result ≡ header_fits any_version image.now }
{
    if image.len() < HEADER || image[0] != 1 && image[0] != 2 {
        return false;
    }
    let n = num32(image, 1);
    HEADER + n == image.len() && n <= MAX_BODY
}

fn read_tree(source: &[u8], image: &[u8], at: usize) -> Result<Document, Refused>
    requires { (7 ≤ at) × (at ≤ length image.now) }
    ensures { answer_of (λ d. d) result ≡ outcome (read_tree source.now image.now (width_bytes image.now) at) }
{
    let reader = Reader {
        source,
        image,
        left: MAX_RECORDS_DEEP,
        at,
        end: image.len(),
    };
    let next = reader.read_record(Due::Tree)?;
    if next < image.len() {
        return Err(Reason::Record.at(next));
    }
    Ok(Document {
        comments: num16(image, HEADER),
        tree: at,
    })
}

#[tactic(auto, unfolding(crate::specs::Read::read_image))]
fn read_image(source: &[u8], image: &[u8], ordered: bool) -> Result<Document, Refused>
    ensures { answer_of (λ d. d) result ≡ outcome (read_image any_version ordered source.now image.now) }
{
    if !header_fits(image) {
        return Err(Reason::Header.at(0));
    }
    let at = read_comments(source, image, ordered)?;
    read_tree(source, image, at)
}

// Accepts a source and an image, or refuses them; for an archive, by the earlier rule, whose comments may run backwards.
#[tactic(auto, unfolding(crate::specs::Read::read_with))]
pub fn check_by(source: &[u8], image: &[u8], archive: bool) -> Result<Document, Refused>
    ensures { answer_of (λ d. d) result ≡ outcome (read_by archive source.now image.now) }
{
    if !source_fits(source) {
        return Err(Reason::SourceTooLong.at(0));
    }
    text::utf8::check(source)?;
    read_image(source, image, !archive)
}

// Accepts a source and an image, or refuses them.
pub fn check(source: &[u8], image: &[u8]) -> Result<Document, Refused>
    ensures { Checks source.now image.now result }
{
    check_by(source, image, false)
}

// Accepts a source and an image of one version, its comments in order or not, or refuses them: by 3 where the image is of another version.
#[tactic(auto, unfolding(crate::specs::Read::read_with))]
pub fn check_version(
    source: &[u8],
    image: &[u8],
    version: u8,
    ordered: bool,
) -> Result<Document, Refused>
    ensures { answer_of (λ d. d) result ≡ outcome (read_version version ordered source.now image.now) }
{
    if !source_fits(source) {
        return Err(Reason::SourceTooLong.at(0));
    }
    text::utf8::check(source)?;
    if image.is_empty() || image[0] != version {
        return Err(Reason::Header.at(0));
    }
    read_image(source, image, ordered)
}
