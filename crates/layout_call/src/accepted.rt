// A source and an image that are accepted, with what the reader tells of them.
ghost use Rattle.image.specs.Read.{Accepts};

use comments::parsed::Parsed;
use image::Document;
use refusals::Refused;

/// A source and an image that the reader accepts, by the earlier rule at least: it holds no others.
#[derive(Clone, Copy)]
pub struct Accepted<'a> {
    pub parsed: Parsed<'a>,
    pub doc: Document,
    pub ghost accepts: { Accepts parsed.source.now parsed.image.now doc },
}

impl<'a> Accepted<'a> {
    ghost use Rattle.std.specs.Prelude.{◌≡◌, IfOk};
    ghost use Rattle.image.specs.Read.{read_by, outcome};
    ghost use Rattle.refusals.specs.Reasons.{answer_of};
    ghost use Rattle.layout_call.specs.Steps.{Reads};

    /// Accepts a source and an image, or refuses them; for the archive entry, by the earlier rule.
    pub fn check(source: &'a [u8], image: &'a [u8], archive: bool) -> Result<Accepted<'a>, Refused>
        ensures answer { answer_of (λ a. a.doc) result ≡ outcome (read_by archive source.now image.now) }
        ensures same { IfOk result (λ a. (a.parsed.source.now ≡ source.now) × (a.parsed.image.now ≡ image.now)) }
        ensures read { IfOk result (λ a. Reads a.parsed.source.now a.parsed.image.now archive) }
    {
        let doc = image::check_by(source, image, archive)?;
        let parsed = Parsed { source, image };
        Ok(Accepted { parsed, doc })
    }
}
