// Frames.
ghost use Rattle.std.specs.Prelude.{◌≡◌};
ghost use Rattle.base.specs.DataType.{from_wire};
ghost use Rattle.base.specs.Sum.{checksum_of};
ghost use Rattle.base.specs.Writing.{write_call};
ghost use Rattle.from_end.specs.FromEnd.{back_onto};
ghost use Rattle.escaping.specs.Escaping.{escape_of, unescape_call};
ghost use Rattle.framing.specs.Framing.{pack_call, ack_call, unpack_call};
ghost use Rattle.heading.specs.Heading.{header_read};
ghost use Rattle.telling.specs.Told.{status_of, numbers_of, told, only};
ghost use Rattle.numbers.specs.Numbers.{type_number, header_numbers};

use answers::answer_told;
use frame::DataType;

#[unsafe(no_mangle)]
pub extern "C" fn mdr_data_type(byte: u8) -> u8
    ensures { result ≡ type_number (from_wire byte) }
{
    match DataType::from_wire(byte) {
        DataType::Data => 0,
        DataType::Ack => 1,
        DataType::DataMcNo1 => 2,
        DataType::DataIcd => 3,
        DataType::DataEv => 4,
        DataType::DataMdr => 5,
        DataType::DataCommon => 6,
        DataType::DataMdrNo2 => 7,
        DataType::Shot => 8,
        DataType::ShotMcNo1 => 9,
        DataType::ShotIcd => 10,
        DataType::ShotEv => 11,
        DataType::ShotMdr => 12,
        DataType::ShotCommon => 13,
        DataType::ShotMdrNo2 => 14,
        DataType::Unknown(_) => 15,
    }
}

#[unsafe(no_mangle)]
pub extern "C" fn mdr_checksum(bytes: &[u8]) -> u8
    ensures { result ≡ checksum_of bytes.now }
{
    frame::checksum(bytes)
}

#[unsafe(no_mangle)]
pub extern "C" fn mdr_checksum_from_end(sum: u8, bytes: &[u8]) -> u8
    ensures { result ≡ back_onto sum bytes.now }
{
    frame::checksum_from_end(sum, bytes)
}

#[unsafe(no_mangle)]
pub extern "C" fn mdr_escape(src: &[u8], out: &mut [u8], values: &mut [u64]) -> u8
    ensures value { result ≡ status_of (write_call (escape_of src.now) out.old).answer }
    ensures values_after { values.new ≡ told (numbers_of only (write_call (escape_of src.now) out.old).answer) values.old }
    ensures out_after { out.new ≡ (write_call (escape_of src.now) out.old).out }
{
    answer_told(frame::escape(src, out), values)
}

#[unsafe(no_mangle)]
pub extern "C" fn mdr_unescape(src: &[u8], out: &mut [u8], values: &mut [u64]) -> u8
    ensures value { result ≡ status_of (unescape_call src.now out.old).answer }
    ensures values_after { values.new ≡ told (numbers_of only (unescape_call src.now out.old).answer) values.old }
    ensures out_after { out.new ≡ (unescape_call src.now out.old).out }
{
    answer_told(frame::unescape(src, out), values)
}

#[unsafe(no_mangle)]
pub extern "C" fn mdr_pack(
    data_type: u8,
    seq: u8,
    payload: &[u8],
    out: &mut [u8],
    values: &mut [u64],
) -> u8
    ensures value { result ≡ status_of (pack_call (from_wire data_type) seq payload.now out.old).answer }
    ensures values_after { values.new ≡ told (numbers_of only (pack_call (from_wire data_type) seq payload.now out.old).answer) values.old }
    ensures out_after { out.new ≡ (pack_call (from_wire data_type) seq payload.now out.old).out }
{
    answer_told(
        frame::pack(DataType::from_wire(data_type), seq, payload, out),
        values,
    )
}

#[unsafe(no_mangle)]
pub extern "C" fn mdr_ack(seq: u8, out: &mut [u8], values: &mut [u64]) -> u8
    ensures value { result ≡ status_of (ack_call seq out.old).answer }
    ensures values_after { values.new ≡ told (numbers_of only (ack_call seq out.old).answer) values.old }
    ensures out_after { out.new ≡ (ack_call seq out.old).out }
{
    answer_told(frame::ack(seq, out), values)
}

#[unsafe(no_mangle)]
pub extern "C" fn mdr_unpack(frame: &[u8], work: &mut [u8], values: &mut [u64]) -> u8
    ensures value { result ≡ status_of (unpack_call frame.now work.old).answer }
    ensures values_after { values.new ≡ told (numbers_of header_numbers (unpack_call frame.now work.old).answer) values.old }
    ensures work_after { work.new ≡ (unpack_call frame.now work.old).work }
{
    answer_told(frame::unpack(frame, work), values)
}

#[unsafe(no_mangle)]
pub extern "C" fn mdr_read_header(frame: &[u8], values: &mut [u64]) -> u8
    ensures value { result ≡ status_of (header_read frame.now) }
    ensures values_after { values.new ≡ told (numbers_of header_numbers (header_read frame.now)) values.old }
{
    answer_told(frame::read_header(frame), values)
}
