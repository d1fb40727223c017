// Texts of the source, and literals.

ghost use Rattle.layout.specs.Promises.{Has, LaidAs};
ghost use Rattle.layout.specs.Forms.{SpanAt, content_rule, LiteralAt, literal_of};

use crate::pieces::gap;
use acts::State;
use acts::leaves::Leaf;
use acts::words::Word;
use comments::Kept;
use comments::parsed::Parsed;
use rows::units::Bytes;

// `Node::Ascii` of `span_content`: the source between the ends of the record's span.
pub(crate) fn content(state: &mut State<'_>, parsed: &Parsed<'_>, at: usize)
    requires { Has SpanAt content_rule parsed.now at state.old.cursor }
    ensures { LaidAs SpanAt content_rule parsed.now at state.old state.new }
{
    let from = parsed.start(at);
    let to = parsed.end(at);
    let size = Bytes((to - from) as usize);
    state.push(Leaf::Ascii { start: from, size });
}

// kept: the number of the literal's kind is looked at here alone; an enum would be read from it by the same four arms that match it.
pub(crate) fn literal(state: &mut State<'_>, parsed: &Parsed<'_>, at: usize)
    requires { Has LiteralAt literal_of parsed.now at state.old.cursor }
    ensures { LaidAs LiteralAt literal_of parsed.now at state.old state.new }
{
    let position = parsed.end(at);
    gap(state, parsed, position, &Kept::AROUND_COMMENTS);
    match parsed.payload(at) {
        0 => content(state, parsed, at),
        1 => state.word(Word::True),
        2 => state.word(Word::False),
        _ => state.word(Word::Unit),
    }
}
