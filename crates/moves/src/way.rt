// The ways of a move, and what is due to a text.
ghost use Rattle.std.specs.Prelude.{◌≡◌, ◌+◌, ◌≤◌, length};
ghost use Rattle.image.specs.Bytes.{part};
ghost use Rattle.moves.specs.Moves.{due_width};
ghost use Rattle.moves.specs.Ways.{version_from, version_to, stored_bytes, is_faulty};

use image::bytes::num16;
use image::sizes::WIDTH;
use text::space::trim_end;
use widths::Edition;

// From version 1 to version 2, or back.
#[derive(Clone, Copy, PartialEq, Eq)]
pub(crate) enum Way {
    Forward,
    Back,
}

// How many columns are due to a text; the shebang's are those of its trimmed text.
pub(crate) fn due_width(text: &[u8], shebang: bool) -> usize
    ensures { (result ≡ due_width shebang text.now) × (result ≤ length text.now) }
{
    if shebang {
        let end = trim_end(text, 0, text.len());
        return Edition::Unicode160.text_columns(&text[..end]).0;
    }
    Edition::Unicode160.text_columns(text).0
}

impl Way {
    // The version that is moved.
    pub(crate) fn version_from(self) -> u8
        ensures { result ≡ version_from self }
    {
        match self {
            Way::Forward => 1,
            Way::Back => 2,
        }
    }

    // The version that it becomes.
    pub(crate) fn version_to(self) -> u8
        ensures { result ≡ version_to self }
    {
        match self {
            Way::Forward => 2,
            Way::Back => 1,
        }
    }

    // Whether the payload of a text, from `from` to `to`, has another width stored than is due, or one that can't be stored.
    pub(crate) fn is_faulty(self, image: &[u8], from: usize, to: usize, shebang: bool) -> bool
        requires { (from + stored_bytes self ≤ to) × (to ≤ length image.now) }
        ensures { result ≡ is_faulty self shebang (part from to image.now) }
    {
        match self {
            Way::Forward => num16(image, from) != due_width(&image[from + WIDTH..to], shebang),
            Way::Back => 65535 < due_width(&image[from..to], shebang),
        }
    }
}
