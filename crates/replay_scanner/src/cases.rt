// The cases, one after the other.
use crate::calls::Session;
use replay::{Case, Text, answer_all};

pub fn run(rt: &impl Print, input: &[u8]) {
    let mut session = Session::new();
    answer_all(rt, input, &mut [0; 65536], |case, text| {
        answer(case, &mut session, text)
    });
}

fn answer(case: Case, session: &mut Session, text: &mut Text) {
    match case.letter() {
        b'o' => session.open(case, text),
        b's' => {
            session.set(case);
            text.word(b"set");
            return;
        }
        b'b' => session.push_bytes(case, text),
        b'n' => session.push_copies(case, text),
        b't' => session.take(text),
        b'k' => session.skip(case, text),
        b'l' | b'a' | b'c' => session.write(case, text),
        _ => {
            text.word(b"unknown");
            return;
        }
    }
    session.tell(text);
}
