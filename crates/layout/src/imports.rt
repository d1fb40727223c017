// `import_path`, and the lists of imports.
ghost use Rattle.std.specs.Prelude.{◌≡◌, true, ◌&&◌, not, eqb, ◌+◌};
ghost use Rattle.image.specs.Bytes.{be32};
ghost use Rattle.image.specs.Read.{stop_at};
ghost use Rattle.tree.specs.At.{ImportAt, ImportGroupAt};
ghost use Rattle.acts.specs.Act.{when, says};
ghost use Rattle.acts.specs.Laid.{Room};
ghost use Rattle.acts.specs.Does.{Does};
ghost use Rattle.layout.specs.Layout.{import_first, import_path, import_group};
ghost use Rattle.layout.specs.Promises.{Has, LaidAs};
ghost use Rattle.comments.specs.Record.{InImage, Whole};
ghost use Rattle.layout.specs.Forms.{MaybePathAt, is_single_at};

use crate::forms::BRACES;
use crate::lists::separated;
use crate::paths::path;
use acts::State;
use acts::words::Word;
use comments::parsed::Parsed;
use image::sizes::HEAD;

// The path of an import, where there is one.
fn import_first(state: &mut State<'_>, parsed: &Parsed<'_>, at: usize)
    requires { Has MaybePathAt import_first parsed.now at state.old.cursor }
    ensures { LaidAs MaybePathAt import_first parsed.now at state.old state.new }
{
    if parsed.is_absent(at) {
        return;
    }
    path(state, parsed, at, true, false);
}

// The dot between the path at `from` and the group at `at`, where both are there.
fn import_dot(state: &mut State<'_>, parsed: &Parsed<'_>, from: usize, at: usize)
    requires path_in_image { InImage parsed.now.image.now from }
    requires group_in_image { InImage parsed.now.image.now at }
    requires room { Room (when (not (eqb (be32 parsed.now.image.now from) 0) && not (eqb (be32 parsed.now.image.now at) 0)) (says ".")) state.old.cursor }
    ensures { Does (when (not (eqb (be32 parsed.now.image.now from) 0) && not (eqb (be32 parsed.now.image.now at) 0)) (says ".")) state.old state.new }
{
    if parsed.is_absent(from) {
        return;
    }
    if parsed.is_absent(at) {
        return;
    }
    state.word(Word::Dot);
}

// Whether the list at `at` has one element.
fn is_single(parsed: &Parsed<'_>, at: usize) -> bool
    requires whole { Whole parsed.now.image.now at }
    requires in_image { (stop_at parsed.now.image.now at ≡ at + 13 → ⊥) → InImage parsed.now.image.now (at + 13) }
    ensures { result ≡ is_single_at parsed.now.image.now at }
{
    let to = parsed.past(at);
    at + HEAD != to && parsed.past(at + HEAD) == to
}

#[cycle(import)]
pub(crate) fn import_path(state: &mut State<'_>, parsed: &Parsed<'_>, at: usize)
    requires { Has ImportAt import_path parsed.now at state.old.cursor }
    ensures { LaidAs ImportAt import_path parsed.now at state.old state.new }
{
    let p = parsed.second(at);
    import_first(state, parsed, at + HEAD);
    import_dot(state, parsed, at + HEAD, p);
    import_group(state, parsed, p);
}

// The group of an import, where there is one: one item loses its braces.
#[cycle(import)]
fn import_group(state: &mut State<'_>, parsed: &Parsed<'_>, at: usize)
    requires { Has ImportGroupAt import_group parsed.now at state.old.cursor }
    ensures { LaidAs ImportGroupAt import_group parsed.now at state.old state.new }
{
    if parsed.is_absent(at) {
        return;
    }
    if is_single(parsed, at) {
        import_path(state, parsed, at + HEAD);
        return;
    }
    let item = |inner: &mut State<'_>, p: usize|
        requires { Has ImportAt import_path parsed.now p inner.old.cursor }
        ensures { LaidAs ImportAt import_path parsed.entry.now p inner.old inner.new }
    { import_path(inner, parsed, p) };
    separated(state, parsed, at, parsed.end(at), BRACES, item);
}
