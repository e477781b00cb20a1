// Prints the log of the capture on standard input, an empty line, and the log of the frames that are in the first log's `F` and `S` lines. The limit, the
// buffers and the pieces are those of `outlog`. Where no frame packs to more than the limit and one byte, the second log is those lines of the first.
#![tactic(auto)]

mod frames;
mod logs;

use frames::frames_of;
use logs::log_of;
use replay::write_all;

fn main(rt: HostRuntime) {
    let mut input = replay::room();
    let mut log = [0; 262144];
    let mut frames = [0; 131072];
    let n = replay::read_full(&mut rt.stdin(), &mut input);
    twice(&rt, &input[..n], &mut log, &mut frames);
}

fn twice(rt: &impl Print, input: &[u8], log: &mut [u8], frames: &mut [u8]) {
    let once = log_of(rt, input, log);
    write_all(rt, once);
    write_all(rt, b"\n");
    let frames = frames_of(rt, once, frames);
    write_all(rt, log_of(rt, frames, log));
}
