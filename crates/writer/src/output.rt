// Bytes put into an output.
ghost use Rattle.std.specs.Prelude.{◌≡◌, [], ◌∷◌, ◌+◌, ◌-◌, ◌%◌, ◌<◌, ◌≤◌, ◌^◌, length, set, take};
ghost use Rattle.std.proofs.lemmas.List.Edits.{sets};
ghost use Rattle.image.specs.Write.{bytes4, bytes2};
ghost use Rattle.writer.specs.Appends.{Appends, Sets};

// Sets the byte at a place.
// kept: like `put` of rows, which this crate isn't above.
fn set(out: &mut [u8], pos: usize, byte: u8)
    ensures { out.new ≡ set out.old pos byte }
{
    if pos < out.len() {
        out[pos] = byte;
    }
}

// Sets the first n bytes from a place on, one by one: `copy_from_slice` is the C library's `memmove`, and the functions for other languages
// need none.
#[inline(always)]
fn set_front(out: &mut [u8], pos: usize, bytes: &[u8], n: usize)
    requires { (n ≤ length bytes.now) × (pos + n ≤ length out.old) }
    ensures { out.new ≡ sets out.old pos (take n bytes.now) }
{
    for k in 0..n {
        out[pos + k] = bytes[k];
    }
}

// The same where not all of them have room. (Not made part of its callers: bytes on their stack would be copied by the C library's `memcpy`.)
#[inline(never)]
fn set_part(out: &mut [u8], pos: usize, bytes: &[u8], n: usize)
    requires { (n ≤ length bytes.now) × (pos + n ≤ length out.old) }
    ensures { out.new ≡ sets out.old pos (take n bytes.now) }
{
    set_front(out, pos, bytes, n);
}

// Sets bytes from a place on, as far as there is room. (Made part of its callers: most give a number of bytes that is known there.)
// kept: renderer's output.rt has the like. No crate with code lies below both, and one for this alone would be longer than the two.
#[inline(always)]
fn set_all(out: &mut [u8], pos: usize, bytes: &[u8])
    ensures { out.new ≡ sets out.old pos bytes.now }
{
    if out.len() <= pos {
        return;
    }
    let room = out.len() - pos;
    if bytes.len() <= room {
        set_front(out, pos, bytes, bytes.len());
    } else {
        set_part(out, pos, bytes, room);
    }
}

// Sets the low four bytes of a number, big-endian, at a place.
fn set_number(out: &mut [u8], pos: usize, n: usize)
    ensures { out.new ≡ sets out.old pos (bytes4 (n % 4294967296)) }
{
    let low = (n % 4294967296) as u32;
    set_all(out, pos, &low.to_be_bytes());
}

// An output, and the place where the next byte goes. Bytes past its end are dropped, so that a run over an output without room counts what it
// needs.
#[derive(Drop)]
pub struct Output<'a> {
    pub bytes: &'a mut [u8],
    pub pos: usize,
}

impl Output<'_> {
    // Sets the low four bytes of a number, big-endian, at a place.
    pub fn set32(&mut self, pos: usize, n: usize)
        ensures { Sets (bytes4 (n % 4294967296)) pos self.old self.new }
    {
        set_number(self.bytes, pos, n);
    }

    // Puts a byte.
    pub fn put(&mut self, byte: u8)
        requires { self.old.pos + 1 < 2 ^ 64 }
        ensures { Appends (byte ∷ []) self.old self.new }
    {
        set(self.bytes, self.pos, byte);
        self.pos += 1;
    }

    // Puts a number of two bytes, big-endian.
    pub fn put16(&mut self, n: usize)
        requires { (self.old.pos + 2 < 2 ^ 64) × (n < 2 ^ 16) }
        ensures { Appends (bytes2 n) self.old self.new }
    {
        let low = n as u16;
        self.copy(&low.to_be_bytes());
    }

    // Puts the low four bytes of a number, big-endian.
    pub fn put32(&mut self, n: usize)
        requires { self.old.pos + 4 < 2 ^ 64 }
        ensures { Appends (bytes4 (n % 4294967296)) self.old self.new }
    {
        set_number(self.bytes, self.pos, n);
        self.pos += 4;
    }

    // Puts bytes, one behind the other.
    #[inline(always)]
    pub fn copy(&mut self, bytes: &[u8])
        requires { self.old.pos + length bytes.now < 2 ^ 64 }
        ensures { Appends bytes.now self.old self.new }
    {
        set_all(self.bytes, self.pos, bytes);
        self.pos += bytes.len();
    }
}
