// The cases, one after the other.
use crate::calls::{Call, call_into, cuts_into, place};
use frame::DataType;
use replay::{Case, Text, answer_all, fill, first, first_mut, mix_bytes, set};

// What a call reads, what it writes, and what a call on that writes.
#[derive(Drop)]
struct Buffers {
    src: [u8; 66000],
    out: [u8; 132100],
    work: [u8; 132100],
}

pub fn run(rt: &impl Print, input: &[u8]) {
    let mut buffers = Buffers {
        src: [0; 66000],
        out: [0; 132100],
        work: [0; 132100],
    };
    answer_all(rt, input, &mut [0; 65536], |case, text| {
        answer(case, &mut buffers, text)
    });
}

fn answer(case: Case, buffers: &mut Buffers, text: &mut Text) {
    match case.letter() {
        b's' => text.byte(frame::checksum(case.hex(1, &mut buffers.src))),
        b'o' => {
            let bytes = case.hex(2, &mut buffers.src);
            text.byte(frame::checksum_from_end(case.byte(1), bytes));
        }
        b'c' => cuts_into(case.hex(1, &mut buffers.src), text),
        b'k' => {
            let bytes = first_mut(&mut buffers.src, case.size(1));
            fill(bytes, case.number(2));
            cuts_into(bytes, text);
        }
        b't' => {
            let t = DataType::from_wire(case.byte(1));
            text.number(place(t));
            text.byte(t.to_wire());
        }
        b'e' => call_case(Call::Escape, case, buffers, text),
        b'u' => call_case(Call::Unescape, case, buffers, text),
        b'f' => call_case(Call::Unpack, case, buffers, text),
        b'a' => call_case(Call::Ack(case.byte(2)), case, buffers, text),
        b'v' => next_case(&every_byte(), case, buffers, text),
        b'w' => next_case(
            &[0x3C, 0x3D, 0x3E, 0x2C, 0x2D, 0x2E, 0x41],
            case,
            buffers,
            text,
        ),
        b'p' => frame_case(None, case, buffers, text),
        b'd' => frame_case(Some((case.size(7), case.byte(8))), case, buffers, text),
        _ => text.word(b"unknown"),
    }
}

// A call that is lent M bytes, on BYTES; an acknowledgement is of a sequence alone.
fn call_case(call: Call, case: Case, buffers: &mut Buffers, text: &mut Text) {
    let bytes = case.hex(2, &mut buffers.src);
    call_into(call, bytes, first_mut(&mut buffers.out, case.size(1)), text);
}

fn every_byte() -> [u8; 256] {
    std::array::from_fn(|i| i as u8)
}

// The sum of the answers for BYTES and one byte more.
fn next_case(nexts: &[u8], case: Case, buffers: &mut Buffers, text: &mut Text) {
    let Buffers { src, out, work } = buffers;
    let n = case.hex(1, src).len();
    let mut line = Text::new(work);
    let mut sum = 0;
    for &next in nexts {
        set(src, n, next);
        line.clear();
        let bytes = first(src, n + 1);
        call_into(
            Call::Unescape,
            bytes,
            first_mut(out, bytes.len()),
            &mut line,
        );
        sum = mix_bytes(sum, line.written());
    }
    text.number(sum);
}

fn type_of(case: Case) -> DataType {
    let byte = case.byte(3);
    if case.number(3) < 256 {
        return DataType::from_wire(byte);
    }
    DataType::Unknown(byte)
}

// What is done to a packed frame before it is unpacked: nothing, or a byte is put at a place.
fn frame_case(damage: Option<(usize, u8)>, case: Case, buffers: &mut Buffers, text: &mut Text) {
    let payload = first_mut(&mut buffers.src, case.size(5));
    fill(payload, case.number(6));
    let out = first_mut(&mut buffers.out, case.size(1));
    fill(out, 84);
    let packed = frame::pack(type_of(case), case.byte(4), payload, out);
    match damage {
        None => {
            text.answer(packed, Text::size);
            text.bytes(out);
        }
        Some((at, byte)) => set(out, at, byte),
    }
    if let Ok(n) = packed {
        let work = first_mut(&mut buffers.work, case.size(2));
        call_into(Call::Unpack, first(out, n), work, text);
    }
}
