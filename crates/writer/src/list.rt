// The steps of an image that was accepted.
ghost use Rattle.std.specs.Prelude.{◌≡◌, map, ◌+◌, ◌*◌, ◌≤◌, length};
ghost use Rattle.tree.specs.CommentList.{pairs_at};
ghost use Rattle.image.specs.Bytes.{part};
ghost use Rattle.image.specs.Read.{head_at, kind_at};
ghost use Rattle.steps.specs.Steps.{comment_step, payload_steps, list_bytes};
ghost use Rattle.writer.specs.Put.{Same};
ghost use Rattle.writer.specs.Stands.{Puts, TreeThere, RowThere, HeadThere, ImageThere, PutsTree, PutsRow, PutsImage};

use crate::output::Output;
use crate::step::Code;
use image::bytes::num32;
use image::kinds::Kind;
use image::sizes::{HEAD, LENGTH, PAIR, PAIRS, WIDTH};

// Puts the steps of the payload of the record at `at`, and answers where its children start.
fn list_payload(image: &[u8], at: usize, out: &mut Output) -> usize
    requires { HeadThere image.now at out.old.pos }
    ensures first { result ≡ (head_at image.now at).first }
    ensures put { Puts (list_bytes (payload_steps (kind_at image.now at) (part (at + 13) (head_at image.now at).first image.now)))
        out.old.pos out.old.bytes.now out.new.pos out.new.bytes.now }
    ensures same { Same out.old out.new }
{
    let first = at + HEAD;
    let Some(kind) = Kind::of(image[at + LENGTH]) else {
        return first;
    };
    if kind.is_text() {
        let text = first + WIDTH;
        let stop = at + LENGTH + num32(image, at);
        out.put(Code::Text as u8);
        out.copy(&image[first..text]);
        out.put32(stop - text);
        out.copy(&image[text..stop]);
        return stop;
    }
    if kind.has_byte() {
        out.put(Code::Payload as u8);
        out.put(image[first]);
        return first + 1;
    }
    first
}

// Puts the steps of the child at `at`, which is absent or a record.
#[cycle(listing)]
fn list_tree(image: &[u8], at: usize, out: &mut Output)
    requires { TreeThere image.now at out.old.pos }
    ensures put { PutsTree image.now at out.old.pos out.old.bytes.now out.new.pos out.new.bytes.now }
    ensures same { Same out.old out.new }
{
    let n = num32(image, at);
    if n == 0 {
        out.put(Code::Absent as u8);
        return;
    }
    out.put(Code::Open as u8);
    out.copy(&image[at + LENGTH..at + HEAD]);
    let first = list_payload(image, at, out);
    list_trees(image, first, at + LENGTH + n, out);
    out.put(Code::Close as u8);
}

// Puts the steps of the children from `first` to `stop`.
#[cycle(listing)]
fn list_trees(image: &[u8], first: usize, stop: usize, out: &mut Output)
    requires { RowThere image.now first stop out.old.pos }
    ensures put { PutsRow image.now first stop out.old.pos out.old.bytes.now out.new.pos out.new.bytes.now }
    ensures same { Same out.old out.new }
{
    let mut at = first;
    // kept: a loop: the iterator of records is a method of comments' `Parsed`, which this crate isn't above, and whose source no step needs.
    while at < stop {
        list_tree(image, at, out);
        at += LENGTH + num32(image, at);
    }
}

// Puts the steps of the comments.
fn list_comments(image: &[u8], count: usize, out: &mut Output)
    requires there { (7 + 8 * count ≤ length image.now) × (count ≤ 8192) }
    requires fresh { out.old.pos ≡ 0 }
    ensures put { Puts (list_bytes (map (λ x. comment_step x.start x.end) (pairs_at image.now count 7)))
        0 out.old.bytes.now out.new.pos out.new.bytes.now }
    ensures same { Same out.old out.new }
{
    for pair in image[PAIRS..PAIRS + PAIR * count].chunks(PAIR) {
        out.put(Code::Comment as u8);
        out.copy(pair);
    }
}

// Puts the steps of an image with `count` comments and its tree at `tree`, and answers how many bytes they have.
pub(crate) fn list_image(image: &[u8], count: usize, tree: usize, bytes: &mut [u8]) -> usize
    requires { ImageThere image.now count tree }
    ensures { PutsImage image.now bytes.old result bytes.new }
{
    let mut out = Output { bytes, pos: 0 };
    list_comments(image, count, &mut out);
    list_tree(image, tree, &mut out);
    out.pos
}
