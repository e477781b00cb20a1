// A status, 0 or the refusal's number; the window, by value; and numbers that are told.
ghost use Rattle.std.specs.Prelude.{◌≡◌};
ghost use Rattle.noise.specs.Noise.{noise_of};
ghost use Rattle.window.specs.Window.{opened, counts_of};
ghost use Rattle.telling.specs.Told.{status_of, numbers_of, told};
ghost use Rattle.window_answers.specs.WindowAnswers.{window_numbers, handed_in, counts_with};

use noise::decode_noise;
use telling::{refuse, tell};
use window::NoiseWindow;

// The window is as the call leaves it.
#[derive(Clone, Copy)]
pub struct Windowed {
    pub status: u8,
    pub window: NoiseWindow,
}

pub fn window_opened(width: u64) -> Windowed
    ensures status_value { result.status ≡ 0 }
    ensures window_value { result.window ≡ opened width }
{
    Windowed {
        status: 0,
        window: window::open(width),
    }
}

pub fn window_told(window: NoiseWindow, values: &mut [u64]) -> u8
    ensures value { result ≡ 0 }
    ensures values_after { values.new ≡ told (window_numbers (counts_of window)) values.old }
{
    let counts = window::counts(window);
    let numbers = [counts.off, counts.anc, counts.ambient, counts.level];
    tell(&numbers, values);
    0
}

// The report that a payload is read as, handed in.
pub fn window_pushed(window: NoiseWindow, payload: &[u8], values: &mut [u64]) -> Windowed
    ensures status_value { result.status ≡ status_of (counts_with window (noise_of payload.now)) }
    ensures window_value { result.window ≡ handed_in window (noise_of payload.now) }
    ensures values_after { values.new ≡ told (numbers_of window_numbers (counts_with window (noise_of payload.now))) values.old }
{
    match decode_noise(payload) {
        Ok(report) => {
            let next = window::push(window, report);
            Windowed {
                status: window_told(next, values),
                window: next,
            }
        }
        Err(r) => Windowed {
            status: refuse(r, values),
            window,
        },
    }
}
