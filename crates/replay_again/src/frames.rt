// The frames of a log's `F` and `S` lines, read back and packed.
use frame::pack;
use line_reader::{LineRead, read_line};
use replay::{behind_mut, first, write_all};

// The frames, one behind the other at the front of a buffer.
pub fn frames_of<'b>(rt: &impl Print, log: &[u8], frames: &'b mut [u8]) -> &'b [u8] {
    let mut payload = [0; 8192];
    let mut len: usize = 0;
    for line in log.split_inclusive(|&b| b == b'\n') {
        len = len.saturating_add(put_frame(rt, line, &mut payload, behind_mut(frames, len)));
    }
    first(frames, len)
}

// The frame of a line goes to the front of the output; the answer is how many bytes it has.
fn put_frame(rt: &impl Print, line: &[u8], payload: &mut [u8], out: &mut [u8]) -> usize {
    match read_line(line, payload) {
        Ok(
            LineRead::Full {
                data_type,
                seq,
                len,
            }
            | LineRead::Masked {
                data_type,
                seq,
                len,
            },
        ) => pack(data_type, seq, first(payload, len), out).unwrap_or_else(|_| {
            write_all(rt, b"a frame was refused\n");
            0
        }),
        Ok(_) => 0,
        Err(_) => {
            write_all(rt, b"a line of the log was refused\n");
            0
        }
    }
}
