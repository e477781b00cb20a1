// More bytes of the input, behind those that are held.
ghost use Rattle.std.specs.Prelude.{◌≡◌, ◌-◌, ◌≤◌, length, take};
ghost use Rattle.std.proofs.Math.Seq.{slice};
ghost use Rattle.line_input.specs.State.{held_of};
ghost use Rattle.line_input.specs.Filling.{at_front, Filled};

use crate::state::Input;
use std::io::Read;

// What is held goes to the front of the buffer. The bytes of a line that goes on are there already, so that no byte moves twice.
fn to_front(input: Input, buf: &mut [u8]) -> Input
    ensures value { result ≡ at_front input (length (held_of input buf.old)) }
    ensures buf_after { held_of result buf.new ≡ held_of input buf.old }
{
    let to = input.end.min(buf.len());
    let from = input.at.min(to);
    if from > 0 {
        buf.copy_within(from..to, 0);
    }
    Input {
        at: 0,
        seen: input.seen.saturating_sub(input.at),
        end: to - from,
        ..input
    }
}

// A buffer with no room left cannot be filled, which is told as a read that failed.
pub fn fill<R: Read>(input: Input, reader: &mut R, buf: &mut [u8]) -> Input
    ensures { Filled input buf.old result buf.new }
{
    let next = to_front(input, buf);
    let end = next.end;
    if end >= buf.len() {
        return Input {
            failed: true,
            ..next
        };
    }
    match reader.read(&mut buf[end..]) {
        Err(_) => Input {
            failed: true,
            ..next
        },
        Ok(0) => Input {
            ended: true,
            ..next
        },
        Ok(got) => Input {
            end: end + got,
            ..next
        },
    }
}
