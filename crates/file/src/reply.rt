// What the program writes for a frame.
ghost use Rattle.file.specs.Reply.{Replies};

use crate::format_frame;
use lines::refused_line_of;

/// Puts the text of the frame's file, or the line that refuses it, at the start of the output; how many bytes that is.
pub fn reply(frame: &[u8], out: &mut [u8; 65536]) -> usize
    ensures { Replies frame.now out.old result out.new }
{
    match format_frame(frame, out) {
        Ok(text) => text.bytes.0,
        Err(refused) => {
            let line = refused_line_of(refused.number(), refused.place);
            let end = line.len();
            out[..end].copy_from_slice(line.as_str().as_bytes());
            end
        }
    }
}
