// The line that tells a window's counts, measured first and written only where it fits.
ghost use Rattle.std.specs.Prelude.{◌≡◌, ◌+◌, ◌≤◌, ◌<◌, ◌++◌, length};
ghost use Rattle.base.specs.Writing.{write_or};
ghost use Rattle.base.specs.Stored.{Stored};
ghost use Rattle.window_line.specs.WindowLine.{shown, decimal_of, counts_line};
ghost use Rattle.base.specs.Refusal.{outcome_of};

use frame::Refusal;
use window::NoiseCounts;

// No window counts more than 64. A number of three digits, which only a caller can have written, is shown as 99.
fn two_digits(n: u64) -> u8
    ensures { result ≡ shown n }
{
    n.min(99) as u8
}

// How many digits a number is shown by.
#[tactic(auto, using(crate::proofs::LawsWindowLine::one_digit, crate::proofs::LawsWindowLine::two_digits, crate::proofs::LawsWindowLine::shown_all, crate::proofs::LawsWindowLine::shown_two))]
fn places(n: u64) -> usize
    ensures { result ≡ length (decimal_of (shown n)) }
{
    if n < 10 { 1 } else { 2 }
}

// The digits, stored from `at` on; the place behind them.
fn put_decimal(n: u8, out: &mut [u8], at: usize) -> usize
    requires { (n < 100) × (at + length (decimal_of n) ≤ length out.old) }
    ensures { Stored (decimal_of n) out.old at out.new result }
{
    if n < 10 {
        out[at] = b'0' + n;
        return at + 1;
    }
    out[at] = b'0' + n / 10;
    out[at + 1] = b'0' + n % 10;
    at + 2
}

// One by one: a call that copies takes longer than a name this short.
fn put_word(word: &[u8], out: &mut [u8], at: usize) -> usize
    requires { at + length word.now ≤ length out.old }
    ensures { Stored word.now out.old at out.new result }
{
    for (i, &b) in word.iter().enumerate() {
        out[at + i] = b;
    }
    at + word.len()
}

// A name and the digits of a number.
#[tactic(auto, using(crate::proofs::LawsWindowLine::shown_small))]
fn put_named(name: &[u8], n: u64, out: &mut [u8], at: usize) -> usize
    requires { at + (length name.now + length (decimal_of (shown n))) ≤ length out.old }
    ensures { Stored (name.now ++ decimal_of (shown n)) out.old at out.new result }
{
    let next = put_word(name, out, at);
    put_decimal(two_digits(n), out, next)
}

// Writes the line to the front of the output.
#[tactic(auto, using(crate::proofs::LawsWindowLine::digits_few, crate::proofs::LawsWindowLine::line_length, base::proofs::LawsWriting::write_refused))]
pub fn write_counts(counts: NoiseCounts, out: &mut [u8]) -> Result<usize, Refusal>
    ensures result_value { outcome_of result ≡ (write_or 7 (counts_line counts) out.old).answer }
    ensures out_after { out.new ≡ (write_or 7 (counts_line counts) out.old).out }
{
    let digits = places(counts.off)
        + places(counts.anc)
        + places(counts.ambient)
        + places(counts.level);
    if out.len() < 26 + digits {
        return Err(Refusal::LineTooLong);
    }
    let a = put_named(b"off ", counts.off, out, 0);
    let b = put_named(b" anc ", counts.anc, out, a);
    let c = put_named(b" ambient ", counts.ambient, out, b);
    let end = put_named(b" level ", counts.level, out, c);
    out[end] = b'\n';
    Ok(end + 1)
}
