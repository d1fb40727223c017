// Reads files from standard input, and writes a table of what their layout gives: a line for each, then totals (docs/REPORT.md).
#![tactic(auto)]

mod progress;

ghost use Rattle.std.specs.Prelude.{◌≡◌, length};
ghost use Rattle.report.specs.Front.{SOURCE_KEPT as KEPT_OF_SOURCE, IMAGE_KEPT as KEPT_OF_IMAGE};
ghost use Rattle.report.specs.Report.{Fed};

use feed::{Cut, IMAGE_KEPT, LENGTHS, SOURCE_KEPT, read_file};
use progress::{Progress, take_next};
use report_lines::{heads_line, last_lines};
use std::io;
use std::io::Read;

// A proved loop has to end, and nothing says that an input does: no input has as many files.
const FILES: usize = usize::MAX;

// What is held after the last file, what came behind it, and whether the last line was written.
#[derive(Drop)]
struct Ended {
    progress: Progress,
    came: Result<Option<usize>, Cut>,
    written: io::Result<()>,
}

// Room for so many bytes. A caller knows no more of it than its length.
fn room<const N: usize>() -> [u8; N]
    ensures { N ≡ length result }
{
    [0; N]
}

// Takes the files one after another, and writes their lines, until the input ends or a line can't be written. Of a source and an image it keeps
// what is enough (specs/Front.antt).
fn take_files<R: Read>(rt: &impl Print, input: &mut R, source: &mut [u8], image: &mut [u8]) -> Ended
    requires source_room { KEPT_OF_SOURCE ≡ length source.old }
    requires image_room { KEPT_OF_IMAGE ≡ length image.old }
    ensures { Fed result }
{
    let mut lengths = [0u8; LENGTHS];
    let mut progress = Progress::default();
    let mut came = Ok(None);
    let mut written = Ok(());
    // kept: the files are counted in what is held; a range would count them a second time.
    while progress.files < FILES {
        came = read_file(input, &mut lengths, source, image);
        let turn = take_next(came, &lengths, source, image, progress);
        progress = turn.progress;
        written = rt.write_all(turn.line.as_str().as_bytes());
        if written.is_err() {
            break;
        }
        let Ok(Some(_)) = came else {
            break;
        };
    }
    Ended {
        progress,
        came,
        written,
    }
}

// Writes the whole table.
fn report<R: Read>(rt: &impl Print, input: &mut R) -> io::Result<()> {
    let mut source: [u8; SOURCE_KEPT] = room();
    let mut image: [u8; IMAGE_KEPT] = room();
    rt.write_all(heads_line().as_bytes())?;
    let end = take_files(rt, input, &mut source, &mut image);
    end.written?;
    let held = end.progress;
    rt.write_all(last_lines(held.tallies, held.refused).as_str().as_bytes())
}

// Whether the input, which gave no further byte, failed and didn't end.
fn unreadable<R: Read>(input: &mut R) -> bool {
    let mut one = [0u8; 1];
    input.read(&mut one).is_err()
}

// A failure is said on standard error; the status is 0 all the same.
fn main(rt: HostRuntime) {
    let mut input = rt.stdin();
    if report(&rt, &mut input).is_err() {
        let _ = rt.eprintln("report: the table can't be written");
        return;
    }
    if unreadable(&mut input) {
        let _ = rt.eprintln("report: the input can't be read");
    }
}
