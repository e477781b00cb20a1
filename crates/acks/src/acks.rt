// Every span of the held bytes goes, and each accepted frame that is no ack itself is acknowledged.
ghost use Rattle.std.specs.Prelude.{◌≡◌, ◌+◌, ◌≤◌, length, nat_le};
ghost use Rattle.base.specs.Stored.{Stored};
ghost use Rattle.acks.specs.Acks.{due_in, ack_frame, span_ack, acks_in, station_call};
ghost use Rattle.base.specs.Refusal.{outcome_of};

use base::{Refusal, wipe};
use draining::decide_all;
use escaping::escaped_len;
use framing::{Header, ack, unpack};
use heading::read_header;
use held::{Sight, let_go, seek};
use scanner::{Scanner, advance, check};

// The wire byte of an ack.
const ACK: u8 = 0x01;

// What a span is owed: nothing, or an ack of the frame that came with this sequence.
fn owed(unpacked: Result<Header, Refusal>) -> Option<u8>
    ensures { result ≡ due_in (outcome_of unpacked) }
{
    match unpacked {
        Ok(header) if header.data_type.to_wire() != ACK => Some(header.seq),
        Ok(_) => None,
        Err(_) => None,
    }
}

// How long the ack of a frame with this sequence is.
fn ack_len(seq: u8) -> usize
    ensures { result ≡ length (ack_frame seq) }
{
    let answer = 1u8.wrapping_sub(seq);
    let body = [ACK, answer, 0, 0, 0, 0, 1u8.wrapping_add(answer)];
    2 + escaped_len(&body)
}

// How long a span's ack is; read without a work area.
fn span_ack_len(span: &[u8]) -> usize
    ensures { result ≡ length (span_ack span.now) }
{
    match owed(read_header(span)) {
        None => 0,
        Some(seq) => ack_len(seq),
    }
}

// How long the acks are together.
fn acks_len(held: &[u8]) -> usize
    ensures { result ≡ length (acks_in held.now) }
{
    let mut past = 0;
    let mut len = 0;
    // a `loop`: where a span begins shows only behind the one before
    loop {
        match seek(&held[past..]) {
            Sight::NoStart => return len,
            Sight::NoEnd(_) => return len,
            Sight::Both { at, len: n } => {
                let from = past + at;
                past = from + n;
                len += span_ack_len(&held[from..past]);
            }
        }
    }
}

// Whether an output of this length takes them all. A frame has 9 bytes or more and its ack at most 11, so that they need not be measured where there is room for that.
#[tactic(auto, using(crate::proofs::LawsAcks::acks_bound))]
fn acks_fit(held: &[u8], room: usize) -> bool
    ensures { result ≡ nat_le (length (acks_in held.now)) room }
{
    if room / 11 >= held.len() / 9 {
        return true;
    }
    acks_len(held) <= room
}

// A span's ack, stored from `at` on; the place behind it.
fn put_span_ack(span: &[u8], work: &mut [u8], out: &mut [u8], at: usize) -> usize
    requires { (length span.now ≤ length work.old) × (at + length (span_ack span.now) ≤ length out.old) }
    ensures { Stored (span_ack span.now) out.old at out.new result }
{
    let n = span.len();
    match owed(unpack(span, &mut work[..n])) {
        None => at,
        Some(seq) => match ack(seq, &mut out[at..]) {
            Ok(n) => at + n,
            Err(_) => at,
        },
    }
}

// The acks, one behind the other from the front on; how long they are together.
fn put_acks(held: &[u8], work: &mut [u8], out: &mut [u8]) -> usize
    requires { (length held.now ≤ length work.old) × (length (acks_in held.now) ≤ length out.old) }
    ensures { Stored (acks_in held.now) out.old 0 out.new result }
{
    let mut past = 0;
    let mut next = 0;
    // a `loop`, as above
    loop {
        match seek(&held[past..]) {
            Sight::NoStart => return next,
            Sight::NoEnd(_) => return next,
            Sight::Both { at, len } => {
                let from = past + at;
                past = from + len;
                next = put_span_ack(&held[from..past], work, out, next);
            }
        }
    }
}

#[derive(Clone, Copy)]
pub struct Acked {
    pub answer: Result<usize, Refusal>,
    pub scanner: Scanner,
}

// Takes until one finds no span, with the acks of the spans at the front of the output.
pub fn acknowledge(scanner: Scanner, store: &mut [u8], work: &mut [u8], out: &mut [u8]) -> Acked
    ensures answer_value { outcome_of result.answer ≡ (station_call scanner store.old work.old out.old).answer }
    ensures scanner_value { result.scanner ≡ (station_call scanner store.old work.old out.old).scanner }
    ensures store_after { store.new ≡ (station_call scanner store.old work.old out.old).store }
    ensures work_after { work.new ≡ (station_call scanner store.old work.old out.old).work }
    ensures out_after { out.new ≡ (station_call scanner store.old work.old out.old).out }
{
    if let Err(r) = check(scanner, store) {
        return Acked {
            answer: Err(r),
            scanner,
        };
    }
    if work.len() < store.len() {
        return Acked {
            answer: Err(Refusal::WorkTooShort),
            scanner,
        };
    }
    let count = scanner.count;
    if !acks_fit(&store[..count], out.len()) {
        wipe(work);
        return Acked {
            answer: Err(Refusal::OutputTooShort),
            scanner,
        };
    }
    let moved = decide_all(&store[..count], scanner.limit);
    let goes = moved.dropped + moved.handed;
    match advance(scanner, count - goes, moved) {
        Err(r) => Acked {
            answer: Err(r),
            scanner,
        },
        Ok(next) => {
            let n = put_acks(&store[..count], work, out);
            wipe(work);
            let_go(store, count, goes);
            Acked {
                answer: Ok(n),
                scanner: next,
            }
        }
    }
}
