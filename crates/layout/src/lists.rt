// `separated`
ghost use Rattle.std.specs.Prelude.{true};
ghost use Rattle.layout.specs.Elems.{Laying, HasList, LaidList};

use crate::forms::ListForm;
use crate::pieces::{before_elem, close_list, empty_list, end_elems, open_list};
use acts::State;
use acts::parts::Branch;
use comments::parsed::Parsed;
use image::sizes::HEAD;

// The list at `at`, whose span ends at `to`; f lays an element.
pub(crate) fn separated<F: Fn(&mut State<'_>, usize)>(
    state: &mut State<'_>,
    parsed: &Parsed<'_>,
    at: usize,
    to: u32,
    form: ListForm,
    f: F,
)
    requires { HasList (Laying F.Fn f) form to parsed.now at state.old.cursor }
    ensures { LaidList (Laying F.Fn f) form to parsed.now at state.old state.new }
{
    let last = parsed.past(at);
    if at + HEAD == last {
        empty_list(state, parsed, to, form);
        return;
    }
    let id = state.cursor.number;
    let group = state.open(Branch::Group);
    open_list(state, form);
    let indent = state.open(Branch::Indent);
    // kept: here and in the crate's other loops `first` is the Rust's; `enumerate` would count elements, and only 0 would be asked for.
    let mut first = true;
    for p in parsed.records(at + HEAD, last) {
        before_elem(state, parsed, parsed.start(p), first, form.commas);
        f(state, p);
        first = false;
    }
    end_elems(state, parsed, to, id, form.commas);
    state.close(indent);
    close_list(state, parsed, form);
    state.close(group);
}
