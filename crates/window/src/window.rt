// A window over the last noise reports. A report comes as a digit to each row, so that the work is the same whatever the width.
ghost use Rattle.std.specs.Prelude.{◌≡◌, ◌≤◌};
ghost use Rattle.std.specs.Int.Count.{ones_in};
ghost use Rattle.window.specs.Window.{width_of, opened, with_newest, pushed, counts_of};

use noise::{NoiseMode, NoiseReport};

// Each row has a binary digit for each of the last 64 reports, the newest lowest: 1 where the report was Off, Anc, Ambient, or held a level.
#[repr(C)]
#[derive(Clone, Copy, Debug, PartialEq, Eq)]
pub struct NoiseWindow {
    pub width: u64,
    pub off: u64,
    pub anc: u64,
    pub ambient: u64,
    pub level: u64,
}

#[derive(Clone, Copy, Debug, PartialEq, Eq)]
pub struct NoiseCounts {
    pub off: u64,
    pub anc: u64,
    pub ambient: u64,
    // those that hold an ambient level, whatever their mode
    pub level: u64,
}

// From 1 to 64; a width outside is taken as the nearer end.
fn nearest(width: u64) -> u64
    ensures { result ≡ width_of width }
{
    width.clamp(1, 64)
}

#[tactic(auto, unfolding(crate::specs::Window::opened))]
pub fn open(width: u64) -> NoiseWindow
    ensures { result ≡ opened width }
{
    NoiseWindow {
        width: nearest(width),
        off: 0,
        anc: 0,
        ambient: 0,
        level: 0,
    }
}

// The digit of the oldest falls out.
#[tactic(auto, using(crate::proofs::LawsWindow::or_newest), unfolding(crate::specs::Window::with_newest))]
fn with_newest(row: u64, digit: bool) -> u64
    ensures { result ≡ with_newest row digit }
{
    (row << 1) | u64::from(digit)
}

#[tactic(auto, unfolding(crate::specs::Window::pushed))]
pub fn push(window: NoiseWindow, report: NoiseReport) -> NoiseWindow
    ensures { result ≡ pushed window report }
{
    NoiseWindow {
        width: window.width,
        off: with_newest(window.off, report.mode == NoiseMode::Off),
        anc: with_newest(window.anc, report.mode == NoiseMode::Anc),
        ambient: with_newest(window.ambient, report.mode == NoiseMode::Ambient),
        level: with_newest(window.level, report.ambient_level.is_some()),
    }
}

// How many of the lowest digits of a row are 1.
#[tactic(auto, using(crate::proofs::LawsWindow::ones_shifted))]
fn ones_among(row: u64, width: u64) -> u64
    requires { (1 ≤ width) × (width ≤ 64) }
    ensures { result ≡ ones_in width row }
{
    let older = 64 - width;
    u64::from((row << older).count_ones())
}

// Of the last reports, as many as the width. One that the caller wrote into the window is taken as `open` takes it.
#[tactic(auto, using(crate::proofs::LawsWindow::width_least, crate::proofs::LawsWindow::width_most), unfolding(crate::specs::Window::counts_of))]
pub fn counts(window: NoiseWindow) -> NoiseCounts
    ensures { result ≡ counts_of window }
{
    let width = nearest(window.width);
    NoiseCounts {
        off: ones_among(window.off, width),
        anc: ones_among(window.anc, width),
        ambient: ones_among(window.ambient, width),
        level: ones_among(window.level, width),
    }
}
