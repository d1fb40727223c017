// A frame by the whole run: what it answers, and what the program writes.
use crate::stored::Stored;
use file::format_frame;
use file::reply::reply;
use stored_answers::difference::Difference;
use stored_answers::report::count;

// What the run answers, with its output.
fn formatted_found(
    stored: &Stored,
    frame: &[u8],
    out: &mut [u8],
    counts: &mut [usize],
) -> Result<(), Difference> {
    match format_frame(frame, out) {
        Err(refused) => {
            count(counts, usize::from(refused.number()));
            stored.told.refused(refused)
        }
        Ok(text) => {
            count(counts, 0);
            stored.told.found(0, 0)?;
            let Some(accepted) = stored.accepted else {
                return Err(Difference::Number);
            };
            accepted.told_found(out, text)
        }
    }
}

pub(crate) fn whole(
    stored: &Stored,
    frame: &[u8],
    out: &mut [u8; 65536],
    counts: &mut [usize],
) -> Result<(), Difference> {
    formatted_found(stored, frame, out, counts)?;
    out.fill(255);
    let n = reply(frame, out);
    stored.reply_found(out, n)
}
