// Reads the lines of standard input's cases and prints an answer a line.
//
// A case is a line: a letter and its fields, each after one blank. Numbers are decimal, BYTES are hexadecimal in capitals, `-` for none. LINE is all that
// stands behind its blank, with the end of the case's line. An output of M bytes is lent, filled by the rule of seed 84. An answer is followed by all that
// the output holds, and, where the line was read, by the line written anew.
//   l M LINE        read the line
//   x M BYTES       read BYTES
//   c AT M LINE     read the line with each of the 255 other bytes at the place AT
//   i AT M LINE     read the line with each of the 256 bytes put in before the place AT
//   p M LINE        read the line's first n bytes, for every n below its length; and then all but its first n, for every n up to it
// Of `c`, `i` and `p` those answers are printed that are not 24, each after its byte or n, and at the end what an output holds that only those had which
// were refused by 24.
#![tactic(auto)]

mod calls;
mod cases;
mod many;

fn main(rt: HostRuntime) {
    let mut input = replay::room();
    let n = replay::read_full(&mut rt.stdin(), &mut input);
    cases::run(&rt, &input[..n]);
}
