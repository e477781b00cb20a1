// A line read into an output: the answer, what the output holds, and the line written anew.
use base::{Refusal, checksum};
use frame::Header;
use line_reader::{LineRead, read_line};
use lines::{write_header, write_packed, write_unread};
use replay::{Text, fill, first};

// What an output holds before a call.
pub fn lend(out: &mut [u8]) {
    fill(out, 84);
}

pub fn read_in(line: &[u8], out: &mut [u8], text: &mut Text) {
    lend(out);
    told(read_line(line, out), out, text);
}

// The same for one line of many: nothing is printed of a line that is refused by 24, and nothing is put right in the output behind it.
pub fn read_nth(nth: u64, line: &[u8], out: &mut [u8], text: &mut Text) {
    let answer = read_line(line, out);
    if matches!(answer, Err(Refusal::NotALine)) {
        return;
    }
    text.number(nth);
    told(answer, out, text);
    lend(out);
}

fn told(answer: Result<LineRead, Refusal>, out: &[u8], text: &mut Text) {
    match answer {
        Ok(LineRead::Unread(n)) => unread(n, out, text),
        Ok(
            LineRead::Header {
                data_type,
                seq,
                len,
                command,
            },
        ) => {
            let header = Header {
                data_type,
                seq,
                len,
            };
            header_alone(header, command, out, text);
        }
        Ok(
            LineRead::Masked {
                data_type,
                seq,
                len,
            },
        ) => {
            let header = Header {
                data_type,
                seq,
                len,
            };
            packed(b'S', header, out, text);
        }
        Ok(
            LineRead::Full {
                data_type,
                seq,
                len,
            },
        ) => {
            let header = Header {
                data_type,
                seq,
                len,
            };
            packed(b'F', header, out, text);
        }
        Err(r) => {
            text.refusal(r);
            text.bytes(out);
        }
    }
}

fn unread(n: u8, out: &[u8], text: &mut Text) {
    text.word(b"unread");
    text.byte(n);
    text.bytes(out);
    let mut line = [0; 5];
    let answer = write_unread(n, &mut line);
    text.answer(answer, |text, n| text.bytes(first(&line, n)));
}

fn three(header: Header, text: &mut Text) {
    text.byte(header.data_type.to_wire());
    text.byte(header.seq);
    text.size(header.len);
}

// Type, sequence and length, as in a frame.
fn put_head(header: Header, frame: &mut Text) {
    frame.put(header.data_type.to_wire());
    frame.put(header.seq);
    let [.., a, b, c, d] = (header.len as u64).to_be_bytes();
    for byte in [a, b, c, d] {
        frame.put(byte);
    }
}

fn header_alone(header: Header, command: Option<u8>, out: &[u8], text: &mut Text) {
    text.word(b"header");
    three(header, text);
    text.option(command, Text::byte);
    text.bytes(out);
    let mut room = [0; 7];
    let mut head = Text::new(&mut room);
    put_head(header, &mut head);
    if let Some(command) = command {
        head.put(command);
    }
    let mut line = [0; 17];
    let answer = write_header(head.written(), &mut line);
    text.answer(answer, |text, n| text.bytes(first(&line, n)));
}

// The payload stands at the front of the output.
fn packed(letter: u8, header: Header, out: &[u8], text: &mut Text) {
    text.word(if letter == b'S' { b"masked" } else { b"full" });
    three(header, text);
    text.bytes(out);
    let mut room = [0; 73734];
    let mut body = Text::new(&mut room);
    put_head(header, &mut body);
    for &b in first(out, header.len) {
        body.put(b);
    }
    let summed = body.written();
    let mut line = [0; 147456];
    let answer = write_packed(letter, summed, checksum(summed), &mut line);
    text.answer(answer, |text, n| text.bytes(first(&line, n)));
}
