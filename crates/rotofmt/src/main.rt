// Formats the file of one frame: reads the frame, and writes what it is answered with.
#![tactic(auto)]

ghost use Rattle.std.specs.Prelude.{◌≡◌, length};

use file::reply::reply;
use input::read_full;
use std::io;

// Room for a frame, and one byte more, to see that a frame is over.
fn room() -> [u8; 32769]
    ensures { 32769 ≡ length result }
{
    [0; 32769]
}

fn output() -> [u8; 65536]
    ensures { 65536 ≡ length result }
{
    [0; 65536]
}

// Writes what a frame is answered with.
fn answer(rt: &impl Print, frame: &[u8]) -> io::Result<()> {
    let mut out = output();
    let n = reply(frame, &mut out);
    rt.write_all(&out[..n])
}

// A failure is said on standard error; the status is 0 all the same.
fn main(rt: HostRuntime) {
    let mut input = room();
    let n = read_full(&mut rt.stdin(), &mut input);
    if answer(&rt, &input[..n]).is_err() {
        let _ = rt.eprintln("rotofmt: the text can't be written");
    }
}
