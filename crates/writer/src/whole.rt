// The image of a whole list: measured first, then put.
ghost use Rattle.std.specs.Prelude.{◌≡◌, ◌≤◌, length};
ghost use Rattle.writer.specs.Parts.{TreePut, FrontPut};
ghost use Rattle.std.proofs.lemmas.List.Edits.{sets};
ghost use Rattle.refusals.specs.Reasons.{answer_of};
ghost use Rattle.steps.specs.Writer.{contents_from, image_due};
ghost use Rattle.writer.specs.Wrote.{measured, Room};

use crate::output::Output;
use crate::pairs::put_comments;
use crate::step::{COMMENT_BYTES, Step};
use image::grammar::Due;
use image::limits::MAX_RECORDS_DEEP;
use image::sizes::{HEADER, PAIR, PAIRS};
use refusals::{Reason, Refused};

const VERSION: u8 = 1;

// The offset of the step that opens the tree, and how many bytes the image has.
#[derive(Clone, Copy)]
pub struct Measured {
    pub tree: usize,
    pub bytes: usize,
}

// Checks a list and counts what it writes, over an output without room.
pub(crate) fn measure(steps: &[u8]) -> Result<Measured, Refused>
    ensures { answer_of (λ m. m) result ≡ measured (contents_from steps.now) }
{
    let mut out = Output {
        bytes: &mut [],
        pos: 0,
    };
    let tree = put_comments(steps, &mut out)?;
    let root = Step { steps, at: tree };
    let end = root.put_record(MAX_RECORDS_DEEP, Due::Tree, &mut out)?;
    if end < steps.len() {
        return Err(Reason::Steps.at(end));
    }
    Ok(Measured {
        tree,
        bytes: PAIRS + out.pos,
    })
}

// Puts the tree of a list that was measured.
fn put_tree(steps: &[u8], at: usize, bytes: &mut [u8])
    requires { at ≤ length steps.now }
    ensures { TreePut steps.now at bytes.old bytes.new }
{
    let mut out = Output { bytes, pos: 0 };
    let root = Step { steps, at };
    let _ = root.put_record(MAX_RECORDS_DEEP, Due::Tree, &mut out);
}

// Puts what stands before the tree: the version, the length, and the comments with their number.
fn put_front(steps: &[u8], comments: usize, length: usize, bytes: &mut [u8])
    requires { (5 ≤ length) × (comments ≤ 8192) }
    ensures { FrontPut steps.now comments length bytes.old bytes.new }
{
    let mut out = Output { bytes, pos: 0 };
    out.put(VERSION);
    out.put32(length - HEADER);
    out.put16(comments);
    let _ = put_comments(steps, &mut out);
}

// Puts the image of a list that was measured.
pub(crate) fn put_image(steps: &[u8], at: usize, bytes: usize, out: &mut [u8])
    requires { Room steps.now at bytes (length out.old) }
    ensures { out.new ≡ sets out.old 0 (image_due steps.now) }
{
    let comments = at / COMMENT_BYTES;
    put_front(steps, comments, bytes, out);
    put_tree(steps, at, &mut out[PAIRS + PAIR * comments..]);
}
