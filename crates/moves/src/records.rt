// The records of an image, moved.
ghost use Rattle.std.specs.Prelude.{◌≡◌, ◌+◌};
ghost use Rattle.image.specs.Bytes.{part};
ghost use Rattle.image.specs.Read.{head_at, kind_at};
ghost use Rattle.writer.specs.Put.{Same};
ghost use Rattle.writer.specs.Stands.{Puts};
ghost use Rattle.moves.specs.Ways.{payload_due};
ghost use Rattle.moves.specs.Standing.{WholeAt, HeadThere, TreeThere, RowThere, ImageThere, PutsTree, PutsRow, PutsImage};

use crate::way::{Way, due_width};
use image::bytes::num32;
use image::kinds::Kind;
use image::sizes::{HEAD, HEADER, LENGTH, WIDTH};
use writer::output::Output;

// Where the payload of the record at `at` ends.
pub(crate) fn payload_end(image: &[u8], at: usize) -> usize
    requires { WholeAt image.now at }
    ensures { result ≡ (head_at image.now at).first }
{
    let first = at + HEAD;
    let Some(kind) = Kind::of(image[at + LENGTH]) else {
        return first;
    };
    if kind.is_text() {
        return at + LENGTH + num32(image, at);
    }
    if kind.has_byte() {
        return first + 1;
    }
    first
}

// Puts the payload of the record at `at`, moved.
fn put_payload(way: Way, image: &[u8], at: usize, end: usize, shebang: bool, out: &mut Output)
    requires there { HeadThere way shebang image.now at out.old.pos }
    requires ends { end ≡ (head_at image.now at).first }
    ensures put { Puts (payload_due way shebang (kind_at image.now at) (part (at + 13) (head_at image.now at).first image.now))
        out.old.pos out.old.bytes.now out.new.pos out.new.bytes.now }
    ensures same { Same out.old out.new }
{
    let first = at + HEAD;
    if image[at + LENGTH] != Kind::Text as u8 {
        out.copy(&image[first..end]);
        return;
    }
    match way {
        Way::Forward => out.copy(&image[first + WIDTH..end]),
        Way::Back => {
            out.put16(due_width(&image[first..end], shebang));
            out.copy(&image[first..end]);
        }
    }
}

// Puts the child at `at`, which is absent or a record, moved; its length last.
#[cycle(moving)]
fn put_tree(way: Way, image: &[u8], at: usize, shebang: bool, out: &mut Output)
    requires { TreeThere way shebang image.now at out.old.pos }
    ensures put { PutsTree way shebang image.now at out.old.pos out.old.bytes.now out.new.pos out.new.bytes.now }
    ensures same { Same out.old out.new }
{
    let n = num32(image, at);
    if n == 0 {
        out.put32(0);
        return;
    }
    let start = out.pos;
    let end = payload_end(image, at);
    out.pos += LENGTH;
    out.copy(&image[at + LENGTH..at + HEAD]);
    put_payload(way, image, at, end, shebang, out);
    put_trees(
        way,
        image,
        end,
        at + LENGTH + n,
        image[at + LENGTH] == Kind::Tree as u8,
        out,
    );
    out.set32(start, out.pos - start - LENGTH);
}

// Puts the children from `first` to `stop`, moved; the first of them may be the shebang.
#[cycle(moving)]
fn put_trees(way: Way, image: &[u8], first: usize, stop: usize, shebang: bool, out: &mut Output)
    requires { RowThere way shebang image.now first stop out.old.pos }
    ensures put { PutsRow way shebang image.now first stop out.old.pos out.old.bytes.now out.new.pos out.new.bytes.now }
    ensures same { Same out.old out.new }
{
    let mut at = first;
    let mut leads = shebang;
    // kept: as a loop, like that of writer's list.rt: the iterator of records is a method of comments' `Parsed`, which this crate isn't above.
    while at < stop {
        put_tree(way, image, at, leads, out);
        leads = false;
        at += LENGTH + num32(image, at);
    }
}

// Puts an image with its tree at `tree`, moved, and answers how many bytes it has.
pub(crate) fn move_image(way: Way, image: &[u8], tree: usize, bytes: &mut [u8]) -> usize
    requires { ImageThere way image.now tree }
    ensures { PutsImage way image.now bytes.old result bytes.new }
{
    let mut out = Output { bytes, pos: 0 };
    out.put(way.version_to());
    out.pos += LENGTH;
    out.copy(&image[HEADER..tree]);
    put_tree(way, image, tree, false, &mut out);
    let end = out.pos;
    out.set32(1, end - HEADER);
    end
}
