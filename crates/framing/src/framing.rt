// A frame: START, the escaped body, END. A body: type, sequence, length, payload, checksum.
ghost use Rattle.std.specs.Prelude.{◌≡◌};
ghost use Rattle.base.specs.Outcome.{on_accepted};
ghost use Rattle.framing.specs.Framing.{pack_call, ack_call, header_of, body_checked, inner_of, unpack_call};
ghost use Rattle.base.specs.Refusal.{outcome_of};

use base::{DataType, Refusal, checksum, wipe, wipe_from};
use escaping::{END, START, escape_framed, unescape};

// What a frame carried; its payload stands in the work area from offset 6 on.
#[derive(Clone, Copy, Debug, PartialEq, Eq)]
pub struct Header {
    pub data_type: DataType,
    pub seq: u8,
    pub len: usize,
}

// In place where it is called, as is what it writes by: an ack, whose payload is empty, is then no more than its few bytes.
#[inline(always)]
pub fn pack(data_type: DataType, seq: u8, payload: &[u8], out: &mut [u8]) -> Result<usize, Refusal>
    ensures result_value { outcome_of result ≡ (pack_call data_type seq payload.now out.old).answer }
    ensures out_after { out.new ≡ (pack_call data_type seq payload.now out.old).out }
{
    let Ok(len) = u32::try_from(payload.len()) else {
        return Err(Refusal::PayloadTooLong);
    };
    let [a, b, c, d] = len.to_be_bytes();
    let head = [data_type.to_wire(), seq, a, b, c, d];
    let sum = checksum(&head).wrapping_add(checksum(payload));
    escape_framed(&head, payload, sum, out)
}

// The acknowledgement of a frame that came with the sequence `seq`.
pub fn ack(seq: u8, out: &mut [u8]) -> Result<usize, Refusal>
    ensures result_value { outcome_of result ≡ (ack_call seq out.old).answer }
    ensures out_after { out.new ≡ (ack_call seq out.old).out }
{
    pack(DataType::Ack, 1u8.wrapping_sub(seq), b"", out)
}

// What a body's header says, the checksum tested before the length is believed.
#[tactic(auto, unfolding(crate::specs::Framing::body_checked))]
fn read_body(body: &[u8]) -> Result<Header, Refusal>
    ensures { outcome_of result ≡ on_accepted header_of (body_checked body.now) }
{
    let &[kind, seq, a, b, c, d, .., declared] = body else {
        return Err(Refusal::BodyTooShort);
    };
    let n = body.len();
    let computed = checksum(&body[..n - 1]);
    if declared != computed {
        return Err(Refusal::BadChecksum { declared, computed });
    }
    let len = u32::from_be_bytes([a, b, c, d]) as usize;
    if len != n - 7 {
        return Err(Refusal::LengthMismatch {
            declared: len,
            actual: n - 7,
        });
    }
    Ok(Header {
        data_type: DataType::from_wire(kind),
        seq,
        len,
    })
}

// What stands between a frame's markers.
#[tactic(auto, unfolding(crate::specs::Framing::marked))]
pub fn between_markers(frame: &[u8]) -> Result<&[u8], Refusal>
    ensures { on_accepted (λ bytes. bytes.now) (outcome_of result) ≡ inner_of frame.now }
{
    let n = frame.len();
    if n < 9 {
        return Err(Refusal::TooShort);
    }
    if frame[0] != START {
        return Err(Refusal::NoStart);
    }
    if frame[n - 1] != END {
        return Err(Refusal::NoEnd);
    }
    Ok(&frame[1..n - 1])
}

// Reads one whole frame. Its body comes to stand at the front of the work area, with zeros behind.
pub fn unpack(frame: &[u8], work: &mut [u8]) -> Result<Header, Refusal>
    ensures result_value { outcome_of result ≡ (unpack_call frame.now work.old).answer }
    ensures work_after { work.new ≡ (unpack_call frame.now work.old).work }
{
    let len = unescape(between_markers(frame)?, work)?;
    let header = read_body(&work[..len]);
    match header {
        Ok(_) => wipe_from(work, len),
        Err(_) => wipe(work),
    }
    header
}
