// The calls, and their answers in words.
use noise::{NoiseMode, NoiseReport, decode_noise};
use replay::Text;
use window::{NoiseCounts, NoiseWindow, counts, push};

fn report(text: &mut Text, r: NoiseReport) {
    text.word(match r.mode {
        NoiseMode::Off => b"off",
        NoiseMode::Anc => b"anc",
        NoiseMode::Ambient => b"ambient",
    });
    match r.ambient_level {
        Some(level) => {
            text.word(b"level");
            text.byte(level);
        }
        None => text.word(b"no level"),
    }
}

pub fn decoded(payload: &[u8], text: &mut Text) {
    text.answer(decode_noise(payload), report);
}

// The counts, joined by commas.
pub fn told(window: NoiseWindow, text: &mut Text) {
    let NoiseCounts {
        off,
        anc,
        ambient,
        level,
    } = counts(window);
    text.number(off);
    for n in [anc, ambient, level] {
        text.end_with(b',');
        text.number(n);
    }
}

// The window after a payload, which is handed in where the decoder accepts it.
pub fn handed(window: NoiseWindow, payload: &[u8], text: &mut Text) -> NoiseWindow {
    match decode_noise(payload) {
        Ok(r) => {
            let next = push(window, r);
            told(next, text);
            next
        }
        Err(r) => {
            text.refusal(r);
            window
        }
    }
}

pub fn fields(window: NoiseWindow, text: &mut Text) {
    text.number(window.width);
    text.number(window.off);
    text.number(window.anc);
    text.number(window.ambient);
    text.number(window.level);
}
