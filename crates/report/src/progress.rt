// The files one by one: what is held after each, and its line.
ghost use Rattle.report.specs.Report.{answer_to, GoesOn, TakesBy, TakesNext};

use feed::{Cut, LENGTHS, image_kept, source_kept};
use figures::count_file;
use report_lines::{Line, ends_inside_line, file_line, refused_file_line_of};
use tallies::Tallies;

// The files read so far, how many of them were refused, and the tallies over the others.
#[derive(Clone, Copy, Default)]
pub(crate) struct Progress {
    pub(crate) files: usize,
    pub(crate) refused: usize,
    pub(crate) tallies: Tallies,
}

// What is held after a turn, and its line.
#[derive(Drop)]
pub(crate) struct Turn {
    pub(crate) progress: Progress,
    pub(crate) line: Line,
}

// Counts a file or refuses it.
fn count_next(source: &[u8], image: &[u8], p: Progress) -> Turn
    requires { GoesOn p }
    ensures { TakesBy p (answer_to p source.now image.now) result }
{
    let files = p.files + 1;
    match count_file(source, image, p.tallies) {
        Ok(counted) => Turn {
            progress: Progress {
                files,
                tallies: counted.tallies,
                ..p
            },
            line: file_line(files, counted.figures),
        },
        Err(refused) => Turn {
            progress: Progress {
                files,
                refused: p.refused + 1,
                ..p
            },
            line: refused_file_line_of(files, refused.number(), refused.place),
        },
    }
}

// Takes what came next, by its lengths and what the buffers keep of it.
pub(crate) fn take_next(
    came: Result<Option<usize>, Cut>,
    lengths: &[u8; LENGTHS],
    source: &[u8],
    image: &[u8],
    p: Progress,
) -> Turn
    requires { GoesOn p }
    ensures { TakesNext lengths.now source.now image.now p came result }
{
    match came {
        Ok(None) => Turn {
            progress: p,
            line: Line::new(),
        },
        Err(_) => Turn {
            progress: p,
            line: ends_inside_line(p.files + 1),
        },
        Ok(Some(_)) => {
            let s = source_kept(lengths, source.len());
            let i = image_kept(lengths, image.len());
            count_next(&source[..s], &image[..i], p)
        }
    }
}
