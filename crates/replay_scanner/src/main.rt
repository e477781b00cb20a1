// Runs the scanner on the cases of standard input and prints an answer a line.
//
// A case is a line: a letter and its fields, each after one blank. Numbers are decimal, BYTES are hexadecimal in capitals, `-` for none.
// The scanner and its store are kept from line to line. Every answer ends with the count held, the bytes pushed, handed over and dropped, and
// all that the store holds; that of `s` is `set` alone. A line is written under the first P bytes of the house plan, which has 512, in a work
// area of W bytes and an output of M bytes, both filled by the rule of seed 84; its answer goes on with all that these two hold.
//   o L N          lend a store of N bytes, filled by the rule of seed 84, and open with the limit L
//   s L N P H D    go on with the limit L, the count N, and P bytes pushed, H handed over and D dropped, whatever was before
//   b BYTES        push BYTES
//   n N BYTE       push BYTE N times
//   t              find, look, and take: the span's offset and length, the span, and whether it went
//   k D H          skip D bytes that are dropped and H in spans
//   l W M P        a line call: the line's length
//   a W M P        a call for all lines: their length, and what the line call behind them came to
//   c W M          a station call in such a work area and output: how many bytes the acks have
#![tactic(auto)]

mod calls;
mod cases;

fn main(rt: HostRuntime) {
    let mut input = replay::room();
    let n = replay::read_full(&mut rt.stdin(), &mut input);
    cases::run(&rt, &input[..n]);
}
