// The texts that rows refer to.
ghost use Rattle.std.specs.Prelude.{◌≡◌};
ghost use Rattle.rows.specs.Texts.{origin_of, origin_number, origin_text};

use crate::words::WORDS;

// Where the text of a row comes from.
#[derive(Clone, Copy, Debug, PartialEq, Eq)]
pub enum Origin {
    Source,
    Image,
    Words,
}

impl Origin {
    // As it is written in a row.
    pub fn number(self) -> u32
        ensures { result ≡ origin_number self }
    {
        // kept: an enum's number is got by a cast alone.
        self as u32
    }

    // The origin of a number, if it has one.
    pub fn of(number: usize) -> Option<Origin>
        ensures { result ≡ origin_of number }
    {
        match number {
            0 => Some(Origin::Source),
            1 => Some(Origin::Image),
            2 => Some(Origin::Words),
            _ => None,
        }
    }

    // The text itself.
    #[tactic(auto, unfolding(crate::specs::Texts::origin_text, crate::specs::Words::words, crate::specs::Words::joined, crate::specs::Ascii::bytes))]
    pub fn text<'a>(self, source: &'a [u8], image: &'a [u8]) -> &'a [u8]
        ensures { result.now ≡ origin_text source.now image.now (origin_number self) }
    {
        match self {
            Origin::Source => source,
            Origin::Image => image,
            Origin::Words => &WORDS,
        }
    }
}

// The text of an origin's number. A number that is none has no text.
#[tactic(auto, using(crate::proofs::OriginText::is_origin, crate::proofs::OriginText::no_origin))]
pub fn origin_text<'a>(source: &'a [u8], image: &'a [u8], origin: usize) -> &'a [u8]
    ensures { result.now ≡ origin_text source.now image.now origin }
{
    match Origin::of(origin) {
        Some(origin) => origin.text(source, image),
        None => &[],
    }
}
