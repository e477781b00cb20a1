// Runs standard input's cases of ranges, also narrowed twice, and prints an answer a line.
//
// A case is a line: a letter and its fields, each after one blank, all of them decimal numbers. The range has a voice where its step is odd.
//   a MIN MAX STEP            admits, of the 256 levels of a byte and nine beyond them, by their sum
//   w MIN MAX STEP            within, of every pair of 28 bounds, by their sum
//   t MIN MAX STEP LOW HIGH   the range narrowed to LOW and HIGH and then to each pair of bounds from 0 to 3: a word for each, the first level
//                             and the last, `-` for none
//   r MIN MAX STEP LOW HIGH   the other way round: to each pair, and then to LOW and HIGH
//   o MIN MAX STEP LOW HIGH   once, to the higher low and the lower high
//   l MIN MAX STEP LOW HIGH   what `t` leaves by the levels from 0 to 3: `1` where it is admitted, `0` where not, `!` where that is refused; `-` for
//                             none
//   s MIN MAX STEP            all of these of every two pairs of bounds from 0 to 7, and the levels from 0 to 7, by their sum
//   e MIN MAX STEP            the same with eight bounds and levels from 0 to 255
#![tactic(auto)]

mod calls;
mod cases;
mod narrowing;
mod sums;

fn main(rt: HostRuntime) {
    let mut input = replay::room();
    let n = replay::read_full(&mut rt.stdin(), &mut input);
    cases::run(&rt, &input[..n]);
}
