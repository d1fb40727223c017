// A frame by declarations: a layout call to each stop, a closing one, and a rendering call. The layout calls of a frame whose comments are refused
// are all made at the archive entry; those of another at both entries by turns.
use crate::frames::Buffers;
use crate::stored::{Accepted, Stored};
use file::{REFERENCE_WIDTH, Text, render_fresh};
use layout_call::modes::OLD_MODE;
use layout_call::{Laid, LayoutArgs, LayoutState, layout_call};
use refusals::Reason;
use render_call::{MAX_LISTED, RenderArgs, render_call};
use rows::units::Columns;
use stored_answers::difference::{Difference, unless};
use stored_answers::numbers::{Reader, past};
use stored_answers::parts::Parts;
use widths::rules::SUPPLIED;

// The longest frame there may be.
const LONGEST: usize = 32768;

// The source's length in four bytes, the source and the image.
fn parts_of(frame: &[u8]) -> Option<Parts<'_>> {
    if LONGEST < frame.len() {
        return None;
    }
    let (size, rest) = frame.split_at_checked(4)?;
    let mut size = Reader {
        answers: size,
        place: 0,
    };
    let (source, image) = rest.split_at_checked(size.long())?;
    Some(Parts { source, image })
}

// Whether a state is the next that is stored.
fn is_stop(stops: &mut Reader, s: LayoutState) -> bool {
    let stored = LayoutState {
        row: stops.long(),
        number: stops.long(),
        placed: stops.long(),
        position: stops.long(),
        ..s
    };
    s == stored
}

// Whether a state is that of a document laid out up to declaration `stop`, and closed or not.
fn is_at(s: LayoutState, stop: usize, closed: bool) -> bool {
    s.begun && s.closed == closed && s.declaration == stop
}

// What a layout call is told.
fn args_of(stop: usize, close: bool, archive: bool) -> LayoutArgs {
    LayoutArgs {
        stop,
        close,
        mode: OLD_MODE,
        rule: SUPPLIED,
        archive,
    }
}

// A layout call, of a frame that is archived or not.
fn lay(
    parts: Parts,
    store: &mut [u32],
    state: LayoutState,
    args: LayoutArgs,
    archived: bool,
) -> Result<Laid, Difference> {
    let archive = archived || args.stop % 2 == 1;
    let args = LayoutArgs { archive, ..args };
    match layout_call(parts.source, parts.image, store, state, args) {
        Ok(laid) => Ok(laid),
        Err(_) => Err(Difference::Number),
    }
}

// All layout calls.
fn lay_out(
    accepted: &Accepted,
    parts: Parts,
    store: &mut [u32],
    archived: bool,
) -> Result<Laid, Difference> {
    let mut stops = accepted.stops;
    let mut state = LayoutState::default();
    for stop in 0..past(accepted.declarations, 1) {
        state = lay(
            parts,
            store,
            state,
            args_of(stop, false, archived),
            archived,
        )?
        .state;
        unless(
            is_at(state, stop, false) && is_stop(&mut stops, state),
            Difference::State,
        )?;
    }
    let last = args_of(accepted.declarations, true, archived);
    let laid = lay(parts, store, state, last, archived)?;
    unless(
        is_at(laid.state, accepted.declarations, true),
        Difference::State,
    )?;
    Ok(laid)
}

// A frame that is accepted.
fn by_declarations(
    accepted: &Accepted,
    parts: Parts,
    b: &mut Buffers,
    archived: bool,
) -> Result<(), Difference> {
    let store = &mut *b.store;
    let marks = &mut *b.marks;
    let out = &mut *b.out;
    let laid = lay_out(accepted, parts, store, archived)?;
    let args = RenderArgs {
        stop: laid.state.row,
        allotment: usize::MAX,
        width: Columns(REFERENCE_WIDTH),
        rule: SUPPLIED,
    };
    let mut listed = [0; MAX_LISTED];
    let Ok(written) = render_call(
        parts.source,
        parts.image,
        store,
        marks,
        out,
        &mut listed,
        render_fresh(),
        args,
    ) else {
        return Err(Difference::Number);
    };
    let text = Text {
        rows: laid.state.row,
        numbers: laid.state.number,
        left: laid.left,
        bytes: written.bytes,
    };
    accepted.output_found(store, marks, out, text)
}

// What the first layout call answers to a frame whose source or image is refused.
fn refused_found(
    stored: &Stored,
    parts: Parts,
    store: &mut [u32],
    archived: bool,
) -> Result<(), Difference> {
    let args = args_of(0, false, archived);
    match layout_call(
        parts.source,
        parts.image,
        store,
        LayoutState::default(),
        args,
    ) {
        Ok(_) => Err(Difference::Number),
        Err(refused) => stored.told.refused(refused),
    }
}

// Refusal 13 first, then the parts of the frame; what the whole run alone refuses, with 8 or 10, is left to it.
pub(crate) fn pieces(
    stored: &Stored,
    frame: &[u8],
    b: &mut Buffers,
    archived: bool,
) -> Result<(), Difference> {
    let Some(parts) = parts_of(frame) else {
        return stored.told.refused(Reason::Frame.at(0));
    };
    match stored.accepted {
        Some(accepted) => by_declarations(&accepted, parts, b, archived),
        None if stored.told.number < usize::from(Reason::RowsNeeded.number()) => {
            refused_found(stored, parts, b.store, archived)
        }
        None => Ok(()),
    }
}
