// Runs standard input's cases of bills and prints an answer a line.
//
// A case is a line: a letter and its fields, each after one blank. Numbers are decimal, BYTES are hexadecimal in capitals, `-` for none. Counts of lines are
// those of `F`, `S`, `H` and `R` lines, in this order.
//   b F S H R TAX     the bill of line counts
//   t TAX BYTES       the bill of the text BYTES; behind it the text's line counts, and these once more, counted line by line
//   m F S H R BYTES   the line BYTES, counted onto these
//   d BYTES           the number that BYTES are in decimal digits
#![tactic(auto)]

mod calls;
mod cases;

fn main(rt: HostRuntime) {
    let mut input = replay::room();
    let n = replay::read_full(&mut rt.stdin(), &mut input);
    cases::run(&rt, &input[..n]);
}
