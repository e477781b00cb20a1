// The spans of a line in turn: what each is, and its line in the log.
use crate::Buffers;
use crate::readings::Unpacked;
use crate::rules::Refused;
use crate::say::{FromTo, part, place, tried};
use replay::first;
use scanner::{Scanner, Sight, seek};

// As in `outlog`.
const LIMIT: usize = 8192;

pub fn each_span(rt: &impl Print, given: &[u8], buffers: &mut Buffers) {
    let mut scanner = scanner::open(LIMIT, &mut buffers.store).scanner;
    if let Err(r) = scanner.push(&mut buffers.store, given) {
        return tried(println!(rt; "{}", Refused(r)));
    }
    // A turn takes a span, which has bytes, so there are no more turns than bytes, and one that finds none.
    for _ in 0..given.len() {
        if !next_span(rt, &mut scanner, given.len(), buffers) {
            break;
        }
    }
}

// What is held are the last of all the bytes given. Whether there is more to read.
fn next_span(rt: &impl Print, scanner: &mut Scanner, total: usize, buffers: &mut Buffers) -> bool {
    let held = first(&buffers.store, scanner.count);
    let before = total.saturating_sub(held.len());
    let sight = seek(held);
    if let Sight::Both { at, len } = sight {
        let place = FromTo {
            before: before.saturating_add(at),
            len,
        };
        let frame = Unpacked::new(part(held, at, len), &buffers.plan, &mut buffers.work);
        tried(println!(rt; "right  {place}, {frame}"));
        return logged(rt, scanner, buffers);
    }
    if held.is_empty() {
        return false;
    }
    if before == 0 {
        tried(print!(rt; "right  no span: "));
    } else {
        let len = held.len();
        tried(print!(rt; "rest   {}, no span: ", FromTo { before, len }));
    }
    match sight {
        Sight::NoEnd(at) => tried(println!(rt;
            "byte {} is 3E, and no 3C stands behind it",
            place(before.saturating_add(at))
        )),
        _ => tried(println!(rt; "no byte is 3E")),
    }
    // where the bytes have had no span, the log has no line
    if before == 0 {
        return logged(rt, scanner, buffers);
    }
    false
}

// The log's line, which ends with a newline.
fn logged(rt: &impl Print, scanner: &mut Scanner, buffers: &mut Buffers) -> bool {
    let Buffers {
        store,
        plan,
        work,
        out,
        ..
    } = buffers;
    tried(print!(rt; "log    "));
    let lined = masked_log::line(*scanner, store, plan, work, out);
    *scanner = lined.scanner;
    match lined.answer {
        Ok(Some(n)) => {
            tried(rt.write_all(first(out, n)));
            true
        }
        Ok(None) => {
            tried(println!(rt; "no line"));
            false
        }
        Err(r) => {
            tried(println!(rt; "{}", Refused(r)));
            false
        }
    }
}
