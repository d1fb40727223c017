// Section 3: the questions about a well-formed sample. Each is asked at every place a, those about a range at every two places a and b. Places
// run from 0 to the length and one more.
ghost use Rattle.std.specs.Prelude.{ℕ};

use crate::run::Run;
use stored_answers::numbers::{Reader, past};
use text::newlines::{count_newlines, is_range};
use text::space::{find_something, trim_end};
use text::utf8::{Char, char_at, char_before};

// How a place that may be missing is stored, and a character.
fn place(found: Option<usize>) -> usize {
    found.unwrap_or(255)
}

fn point(found: Option<Char>) -> usize {
    found.map_or(0xFFFFFFFF, |c| c.code as usize)
}

// Asks whether the next answer is right, at each place.
fn ask_places<F: Fn(&mut Reader, usize) -> bool>(
    rt: &impl Print,
    run: &mut Run,
    places: usize,
    is_right: F,
)
    requires { F.IsAlwaysCallable is_right }
{
    for a in 0..places {
        let same = is_right(&mut run.answers, a);
        run.compared(rt, same);
    }
}

// The same at each two places.
fn ask_ranges<F: Fn(&mut Reader, usize, usize) -> bool>(
    rt: &impl Print,
    run: &mut Run,
    places: usize,
    is_right: F,
)
    requires { F.IsAlwaysCallable is_right }
{
    for a in 0..places {
        ask_places(rt, run, places, |answers, b| is_right(answers, a, b));
    }
}

// How many newlines there are from a to b; where the text from a to b ends without the white space at its end; where the search from a on
// stops; the character that starts at a; the one that ends at a; where the last newline from a to b is.
pub(crate) fn ask_all(rt: &impl Print, run: &mut Run, s: &[u8]) {
    let places = past(s.len(), 2);
    ask_ranges(rt, run, places, |answers, a, b| {
        answers.byte() == count_newlines(s, a, b).count
    });
    ask_ranges(rt, run, places, |answers, a, b| {
        answers.byte() == place(is_range(s, a, b).then(|| trim_end(s, a, b)))
    });
    ask_places(rt, run, places, |answers, a| {
        answers.byte() == place(find_something(s, a))
    });
    ask_places(rt, run, places, |answers, a| {
        answers.long() == point(char_at(s, a))
    });
    ask_places(rt, run, places, |answers, a| {
        answers.long() == point(char_before(s, 0, a))
    });
    ask_ranges(rt, run, places, |answers, a, b| {
        answers.byte() == count_newlines(s, a, b).place
    });
}
