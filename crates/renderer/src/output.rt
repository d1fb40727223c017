// Writing to an output, as far as it has room: where it has none, what is written is only counted.
ghost use Rattle.std.specs.Prelude.{◌≡◌, [], ◌∷◌, length, replicate};
ghost use Rattle.renderer.specs.Output.{written_over};

use rows::store::put;

// Writes a byte.
pub(crate) fn emit(out: &mut [u8], at: usize, b: u8)
    ensures { out.new ≡ written_over (length out.old) out.old at (b ∷ []) }
{
    put(out, at, b);
}

// Writes n blanks.
pub(crate) fn spaces(out: &mut [u8], at: usize, n: usize)
    ensures { out.new ≡ written_over (length out.old) out.old at (replicate n 0x20) }
{
    if at < out.len() {
        let room = n.min(out.len() - at);
        out[at..at + room].fill(b' ');
    }
}

// Writes a text.
// kept: writer's `set_all` is its twin, and no crate with code is below both. Its bytes go one by one: `copy_from_slice` is the C library's
// `memmove`, and the functions for other languages need none.
pub(crate) fn copy(out: &mut [u8], at: usize, text: &[u8])
    ensures { out.new ≡ written_over (length out.old) out.old at text.now }
{
    if at < out.len() {
        let room = text.len().min(out.len() - at);
        for k in 0..room {
            out[at + k] = text[k];
        }
    }
}
