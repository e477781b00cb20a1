// The next line among the bytes that are held.
ghost use Rattle.std.specs.Prelude.{◌≡◌, max, length, drop};
ghost use Rattle.line_input.specs.Finding.{Lies, newline_at, line_end, line_done, skips_to, passed, fills_all, too_long, line_of, at_end, waiting_of, unfinished_of, next_of};

use crate::state::Input;

#[derive(Clone, Copy, Debug, PartialEq, Eq)]
pub enum Next {
    // It lies in the buffer between these places, its newline included; the last line of all may be without one.
    Line { number: u64, from: usize, to: usize },
    // It is told once, and skipped to its end by the calls that follow.
    TooLong { number: u64 },
    // The buffer is to be filled.
    More,
    End,
    // The input could not be read.
    Failed,
}

#[derive(Clone, Copy, Debug, PartialEq, Eq)]
pub struct Step {
    pub next: Next,
    pub input: Input,
}

// The place behind the first newline from a place on; 0 where there is none.
#[tactic(auto, using(crate::proofs::LawsFinding::newline_here, crate::proofs::LawsFinding::newline_on, crate::proofs::LawsFinding::newline_none))]
fn newline(held: &[u8], from: usize) -> usize
    ensures { result ≡ newline_at from (drop from held.now) }
{
    for i in from..held.len() {
        if held[i] == b'\n' {
            return i + 1;
        }
    }
    0
}

// The place behind the newline of the line that has begun; 0 where it is not held.
#[tactic(auto, unfolding(crate::specs::Finding::line_end))]
fn line_end(input: Input, held: &[u8]) -> usize
    ensures { result ≡ line_end input held.now }
{
    newline(held, input.at.max(input.seen))
}

// The line has ended before a place, and the next one begins there.
fn line_done(input: Input, to: usize) -> Input
    ensures { result ≡ line_done input to }
{
    Input {
        at: to,
        seen: to,
        number: input.number.saturating_add(1),
        skips: false,
        ..input
    }
}

// The bytes before a place are of no more use, and the line is skipped.
fn skipping(input: Input, to: usize) -> Input
    ensures { result ≡ skips_to input to }
{
    Input {
        at: to,
        seen: to,
        skips: true,
        ..input
    }
}

// What is held of a line that is skipped goes, to its end or all of it.
#[tactic(auto, using(crate::proofs::LawsFinding::passed_none, crate::proofs::LawsFinding::passed_all, crate::proofs::LawsFinding::passed_line))]
fn past_skipped(input: Input, held: &[u8]) -> Input
    ensures { result ≡ passed input held.now }
{
    if !input.skips {
        return input;
    }
    let to = line_end(input, held);
    if to == 0 {
        return skipping(input, held.len());
    }
    line_done(input, to)
}

// The buffer has one byte more than the longest line, so that a line that fills it is too long.
fn fills(at: usize, to: usize, room: usize) -> bool
    ensures { result ≡ fills_all at to room }
{
    at == 0 && to == room
}

fn too_long(number: u64, input: Input) -> Step
    ensures { result ≡ too_long number input }
{
    Step {
        next: Next::TooLong { number },
        input,
    }
}

fn line(input: Input, to: usize) -> Step
    ensures { result ≡ line_of input to }
{
    Step {
        next: Next::Line {
            number: input.number,
            from: input.at,
            to,
        },
        input: line_done(input, to),
    }
}

// What stands behind the last newline is a line without one.
fn at_end(input: Input, end: usize) -> Step
    ensures { result ≡ at_end input end }
{
    if input.at < end {
        return line(input, end);
    }
    Step {
        next: Next::End,
        input,
    }
}

// The line goes on behind what is held, if more can be read.
#[tactic(auto, unfolding(crate::specs::Finding::waiting_of))]
fn waiting(input: Input, end: usize) -> Step
    ensures { result ≡ waiting_of input end }
{
    if input.failed {
        return Step {
            next: Next::Failed,
            input,
        };
    }
    if input.ended {
        return at_end(input, end);
    }
    Step {
        next: Next::More,
        input: Input { seen: end, ..input },
    }
}

// A line whose newline is not held.
#[tactic(auto, unfolding(crate::specs::Finding::unfinished_of))]
fn unfinished(input: Input, end: usize, room: usize) -> Step
    ensures { result ≡ unfinished_of input end room }
{
    if input.skips {
        return waiting(input, end);
    }
    if fills(input.at, end, room) {
        return too_long(input.number, skipping(input, end));
    }
    waiting(input, end)
}

// Each byte is searched once, however short the pieces are in which it comes.
#[tactic(auto, using(crate::proofs::LawsFinding::next_unfinished, crate::proofs::LawsFinding::next_too_long, crate::proofs::LawsFinding::next_is_line))]
pub fn next_line(input: Input, buf: &[u8]) -> Step
    ensures value { result ≡ next_of input buf.now }
    ensures lies { Lies result.next (length buf.now) }
{
    let end = input.end.min(buf.len());
    let held = &buf[..end];
    let begun = past_skipped(input, held);
    let to = line_end(begun, held);
    if to == 0 {
        return unfinished(begun, end, buf.len());
    }
    if fills(begun.at, to, buf.len()) {
        return too_long(begun.number, line_done(begun, to));
    }
    line(begun, to)
}
