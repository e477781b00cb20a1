// Each call on the buffers that it is lent, with what it leaves in them.
use frame::{DataType, Header};
use replay::{Text, fill};

fn header(text: &mut Text, h: Header) {
    text.number(place(h.data_type));
    text.byte(h.data_type.to_wire());
    text.byte(h.seq);
    text.size(h.len);
}

// The place of a type in the list of names.
pub fn place(t: DataType) -> u64 {
    match t {
        DataType::Data => 0,
        DataType::Ack => 1,
        DataType::DataMcNo1 => 2,
        DataType::DataIcd => 3,
        DataType::DataEv => 4,
        DataType::DataMdr => 5,
        DataType::DataCommon => 6,
        DataType::DataMdrNo2 => 7,
        DataType::Shot => 8,
        DataType::ShotMcNo1 => 9,
        DataType::ShotIcd => 10,
        DataType::ShotEv => 11,
        DataType::ShotMdr => 12,
        DataType::ShotCommon => 13,
        DataType::ShotMdrNo2 => 14,
        DataType::Unknown(_) => 15,
    }
}

// For every cut, the sum of what is behind it, and the sum with what is before it added onto that.
pub fn cuts_into(src: &[u8], text: &mut Text) {
    for cut in 0..=src.len() {
        let (front, end) = src.split_at(cut);
        let sum = frame::checksum_from_end(0, end);
        text.byte(sum);
        text.byte(frame::checksum_from_end(sum, front));
    }
}

// A call that is lent one buffer.
#[derive(Clone, Copy)]
pub enum Call {
    Escape,
    Unescape,
    Unpack,
    Ack(u8),
}

// The call's answer, and all that the buffer holds after it.
pub fn call_into(call: Call, src: &[u8], out: &mut [u8], text: &mut Text) {
    fill(out, 84);
    match call {
        Call::Escape => text.answer(frame::escape(src, out), Text::size),
        Call::Unescape => text.answer(frame::unescape(src, out), Text::size),
        Call::Unpack => text.answer(frame::unpack(src, out), header),
        Call::Ack(seq) => text.answer(frame::ack(seq, out), Text::size),
    }
    text.bytes(out);
}
