// Each call and its answer.
use finding::Spot;
use replay::{Case, Text, fill, first, first_mut};
use scanner::Scanner;

// The scanner and its store, of which the first `lent` bytes are lent, and what else is lent to calls: `piece` is the bytes of a push, or the output of lines
// or acks.
#[derive(Drop)]
pub struct Session {
    scanner: Scanner,
    lent: usize,
    store: [u8; 140000],
    piece: [u8; 140000],
    work: [u8; 140000],
    plan: [u8; 512],
}

impl Session {
    pub fn new() -> Self {
        Session {
            scanner: scanner::fresh(0),
            lent: 0,
            store: [0; 140000],
            piece: [0; 140000],
            work: [0; 140000],
            plan: plan::house_plan(),
        }
    }

    pub fn open(&mut self, case: Case, text: &mut Text) {
        self.lent = case.size(2);
        let store = first_mut(&mut self.store, self.lent);
        fill(store, 84);
        let opened = scanner::open(case.size(1), store);
        self.scanner = opened.scanner;
        text.answer(opened.answer, |text, ()| text.word(b"open"));
    }

    pub fn set(&mut self, case: Case) {
        self.scanner = Scanner {
            limit: case.size(1),
            count: case.size(2),
            pushed: case.number(3),
            handed: case.number(4),
            dropped: case.number(5),
        };
    }

    pub fn push_bytes(&mut self, case: Case, text: &mut Text) {
        let store = first_mut(&mut self.store, self.lent);
        let piece = case.hex(1, &mut self.piece);
        text.answer(
            self.scanner.push(store, piece),
            |text, ()| text.word(b"stored"),
        );
    }

    pub fn push_copies(&mut self, case: Case, text: &mut Text) {
        let store = first_mut(&mut self.store, self.lent);
        let piece = first_mut(&mut self.piece, case.size(1));
        piece.fill(case.byte(2));
        text.answer(
            self.scanner.push(store, piece),
            |text, ()| text.word(b"stored"),
        );
    }

    // The first span, its offset and length and its bytes, and whether it went.
    pub fn take(&mut self, text: &mut Text) {
        let store = first_mut(&mut self.store, self.lent);
        text.answer(finding::find(self.scanner, store), found);
        text.bytes(finding::look(self.scanner, store));
        text.answer(self.scanner.take(store), |text, span| {
            text.word(if span { b"span" } else { b"none" })
        });
    }

    pub fn skip(&mut self, case: Case, text: &mut Text) {
        let store = first_mut(&mut self.store, self.lent);
        let skipped = scanner::skip(self.scanner, store, case.size(1), case.size(2));
        self.scanner = skipped.scanner;
        text.answer(skipped.answer, |text, ()| text.word(b"gone"));
    }

    // A line call, a call for all lines or a station call, and what the work area and the output hold after it.
    pub fn write(&mut self, case: Case, text: &mut Text) {
        let store = first_mut(&mut self.store, self.lent);
        let work = lent_part(&mut self.work, case.size(1));
        let out = lent_part(&mut self.piece, case.size(2));
        let plan = first(&self.plan, case.size(3));
        match case.letter() {
            b'l' => {
                let lined = line_call::line(self.scanner, store, plan, work, out);
                self.scanner = lined.scanner;
                text.answer(lined.answer, line_of);
            }
            b'a' => {
                let lines = gathering::all_lines(self.scanner, store, plan, work, out);
                self.scanner = lines.scanner;
                text.size(lines.ready);
                text.answer(lines.answer, |text, ()| text.word(b"none"));
            }
            _ => {
                let acked = acks::acknowledge(self.scanner, store, work, out);
                self.scanner = acked.scanner;
                text.answer(acked.answer, acks_of);
            }
        }
        text.bytes(work);
        text.bytes(out);
    }

    // The count held, the three counts of bytes and the store.
    pub fn tell(&self, text: &mut Text) {
        text.size(self.scanner.count);
        text.number(self.scanner.pushed);
        text.number(self.scanner.handed);
        text.number(self.scanner.dropped);
        text.bytes(first(&self.store, self.lent));
    }
}

fn found(text: &mut Text, spot: Option<Spot>) {
    match spot {
        Some(Spot { at, len }) => {
            text.size(at);
            text.size(len);
        }
        None => text.word(b"none"),
    }
}

fn line_of(text: &mut Text, len: Option<usize>) {
    match len {
        Some(n) => {
            text.word(b"line");
            text.size(n);
        }
        None => text.word(b"none"),
    }
}

fn acks_of(text: &mut Text, len: usize) {
    text.word(b"acks");
    text.size(len);
}

// A part of a buffer, filled anew.
fn lent_part(buf: &mut [u8], n: usize) -> &mut [u8] {
    let part = first_mut(buf, n);
    fill(part, 84);
    part
}
