// The misreadings of docs/GRADERS.md, each of the first span.
use crate::counts::Devices;
use crate::readings::Unpacked;
use crate::rules::Refused;
use crate::say::{FromTo, part, tried};
use base::Refusal;
use replay::{behind, first};
use scanner::{Sight, seek};

// Entries of a plan.
const NOISE: u8 = 2;

const PAIRED: u8 = 5;

// A reader who begins again at the next start byte.
pub fn restarted(rt: &impl Print, given: &[u8], plan: &[u8], work: &mut [u8]) {
    let Sight::Both { at, len } = seek(given) else {
        return tried(println!(rt; "there is no span to misread"));
    };
    // the span's own start byte is the last of those skipped
    let skipped = at.saturating_add(1);
    let rest = behind(given, skipped);
    match seek(rest) {
        Sight::Both { at, len: found } if at.saturating_add(1) < len => {
            let place = FromTo {
                before: skipped.saturating_add(at),
                len: found,
            };
            let inner = Unpacked::new(part(rest, at, found), plan, work);
            tried(println!(rt; "a new frame begins at the 3E inside: {place}, {inner}"));
        }
        _ => tried(println!(rt; "there is no 3E inside to misread")),
    }
}

// What a span's body says, its checksum and length untested.
#[derive(Clone, Copy)]
struct Body<'a> {
    kind: u8,
    declared: usize,
    payload: &'a [u8],
}

impl Body<'_> {
    fn has_entry(self, plan: &[u8], entry: u8) -> bool {
        self.payload
            .first()
            .is_some_and(|&command| plan::entry(plan, self.kind, command) == entry)
    }
}

// The body of the first span goes to the work area.
fn untested<'a>(given: &[u8], work: &'a mut [u8]) -> Option<Body<'a>> {
    let Sight::Both { at, len } = seek(given) else {
        return None;
    };
    let [_, escaped @ .., _] = part(given, at, len) else {
        return None;
    };
    let n = frame::unescape(escaped, work).ok()?;
    let [kind, _, a, b, c, d, payload @ .., _] = first(work, n) else {
        return None;
    };
    Some(Body {
        kind: *kind,
        declared: u32::from_be_bytes([*a, *b, *c, *d]) as usize,
        payload,
    })
}

// A reader who tests the length and not the checksum.
pub fn length_first(rt: &impl Print, given: &[u8], work: &mut [u8]) {
    let Some(
        Body {
            declared,
            payload,
            ..
        },
    ) = untested(given, work)
    else {
        return tried(println!(rt; "there is no length to misread"));
    };
    let actual = payload.len();
    if declared == actual {
        return tried(println!(rt; "the length fits"));
    }
    tried(println!(rt; "{}", Refused(Refusal::LengthMismatch { declared, actual })));
}

// A reader to whom a level means ambient.
pub fn level_first(rt: &impl Print, given: &[u8], plan: &[u8], work: &mut [u8]) {
    let report = untested(given, work)
        .filter(|body| body.has_entry(plan, NOISE))
        .and_then(|body| payload::decode_noise(body.payload).ok());
    match report {
        Some(report) => match report.ambient_level {
            Some(level) => tried(println!(rt; "ambient level {level}")),
            None => tried(println!(rt; "ambient")),
        },
        None => tried(println!(rt; "there is no noise control report to misread")),
    }
}

// A reader who looks at the stars and not at the checksum.
pub fn stars_first(rt: &impl Print, given: &[u8], plan: &[u8], work: &mut [u8]) {
    let list = untested(given, work)
        .filter(|body| body.has_entry(plan, PAIRED))
        .and_then(|body| devices_in(body.payload));
    match list {
        Some(list) => tried(println!(rt; "the phone is gone: {list}")),
        None => tried(println!(rt; "there is no list of phones to misread")),
    }
}

fn devices_in(payload: &[u8]) -> Option<Devices<'_>> {
    let count = paired::decode_paired_devices(payload).ok()?;
    Some(Devices { count, payload })
}
