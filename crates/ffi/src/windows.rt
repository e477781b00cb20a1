// The last noise reports. The window is a struct that the caller keeps and lends.
ghost use Rattle.std.specs.Prelude.{◌≡◌};
ghost use Rattle.noise.specs.Noise.{noise_of};
ghost use Rattle.window.specs.Window.{opened, counts_of};
ghost use Rattle.telling.specs.Told.{status_of, numbers_of, told};
ghost use Rattle.window_answers.specs.WindowAnswers.{window_numbers, handed_in, counts_with};

use window::NoiseWindow;
use window_answers::{window_opened, window_pushed, window_told};

#[unsafe(no_mangle)]
pub extern "C" fn mdr_window_open(window: &mut NoiseWindow, width: u64) -> u8
    ensures value { result ≡ 0 }
    ensures window_after { window.new ≡ opened width }
{
    let p = window_opened(width);
    *window = p.window;
    p.status
}

#[unsafe(no_mangle)]
pub extern "C" fn mdr_window_push(
    window: &mut NoiseWindow,
    payload: &[u8],
    values: &mut [u64],
) -> u8
    ensures value { result ≡ status_of (counts_with window.old (noise_of payload.now)) }
    ensures window_after { window.new ≡ handed_in window.old (noise_of payload.now) }
    ensures values_after { values.new ≡ told (numbers_of window_numbers (counts_with window.old (noise_of payload.now))) values.old }
{
    let p = window_pushed(*window, payload, values);
    *window = p.window;
    p.status
}

#[unsafe(no_mangle)]
pub extern "C" fn mdr_window_counts(window: &NoiseWindow, values: &mut [u64]) -> u8
    ensures value { result ≡ 0 }
    ensures values_after { values.new ≡ told (window_numbers (counts_of window.now)) values.old }
{
    window_told(*window, values)
}
