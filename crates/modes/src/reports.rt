// The noise reports of held bytes, each told in a line. They are read where they stand, since a take would move all that stays.
ghost use Rattle.std.specs.Prelude.{◌+◌, ◌≤◌, length};

use crate::say::{complain, print};
use noise_span::noise_in;
use scanner::{Sight, seek};
use window::{NoiseWindow, counts, push};
use window_line::write_counts;

// The window after some reports, how many bytes of lines stand in the output, and whether no print failed.
#[derive(Clone, Copy)]
pub struct Lines {
    pub window: NoiseWindow,
    pub ready: usize,
    pub printed: bool,
}

fn not_printed(window: NoiseWindow) -> Lines
    ensures { result.ready ≤ 0 }
{
    Lines {
        window,
        ready: 0,
        printed: false,
    }
}

// At the front of the output, once the lines that stood there are printed.
fn tell_at_front(rt: HostRuntime, window: NoiseWindow, out: &mut [u8]) -> Lines
    ensures { result.ready ≤ length out.old }
{
    match write_counts(counts(window), out) {
        Ok(n) => Lines {
            window,
            ready: n,
            printed: true,
        },
        Err(_) => {
            complain(rt, b"modes: a line was refused\n");
            not_printed(window)
        }
    }
}

// The window's line, behind those that stand in the output.
fn tell(rt: HostRuntime, window: NoiseWindow, out: &mut [u8], ready: usize) -> Lines
    requires { ready ≤ length out.old }
    ensures { result.ready ≤ length out.old }
{
    match write_counts(counts(window), &mut out[ready..]) {
        Ok(n) => Lines {
            window,
            ready: ready + n,
            printed: true,
        },
        Err(_) => {
            if !print(rt, &out[..ready]) {
                return not_printed(window);
            }
            tell_at_front(rt, window, out)
        }
    }
}

// A span's report, if it holds one, is handed to the window.
fn tell_span(
    rt: HostRuntime,
    lines: Lines,
    frame: &[u8],
    plan: &[u8],
    work: &mut [u8],
    out: &mut [u8],
) -> Lines
    requires { lines.ready ≤ length out.old }
    ensures { result.ready ≤ length out.old }
{
    let window = lines.window;
    match noise_in(plan, frame, work) {
        Some(report) => tell(rt, push(window, report), out, lines.ready),
        None => lines,
    }
}

// How many bytes stand before a span, and how many are in it; none are where there is no span.
#[derive(Clone, Copy)]
struct Spot {
    at: usize,
    len: usize,
}

fn first_span(held: &[u8]) -> Spot
    ensures { result.at + result.len ≤ length held.now }
{
    let none = Spot { at: 0, len: 0 };
    match seek(held) {
        Sight::NoStart => none,
        Sight::NoEnd(_) => none,
        Sight::Both { at, len } => Spot { at, len },
    }
}

// The lines, and how many bytes stand before and between the spans, and how many are in them.
#[derive(Clone, Copy)]
pub struct Told {
    pub lines: Lines,
    pub dropped: usize,
    pub handed: usize,
}

// The reports of all spans of these bytes.
pub fn tell_spans(
    rt: HostRuntime,
    window: NoiseWindow,
    held: &[u8],
    plan: &[u8],
    work: &mut [u8],
    out: &mut [u8],
) -> Told
    ensures { result.lines.ready ≤ length out.old }
{
    let mut lines = Lines {
        window,
        ready: 0,
        printed: true,
    };
    let mut dropped = 0;
    let mut handed = 0;
    loop {
        let past = dropped + handed;
        let span = first_span(&held[past..]);
        if span.len == 0 || !lines.printed {
            return Told {
                lines,
                dropped,
                handed,
            };
        }
        let at = past + span.at;
        let end = at + span.len;
        lines = tell_span(rt, lines, &held[at..end], plan, work, out);
        dropped += span.at;
        handed += span.len;
    }
}
