// Runs standard input's cases of windows over noise reports and prints an answer a line.
//
// A case is a line: a letter and its fields, each after one blank. Numbers are decimal, up to 18446744073709551615. PAYLOAD is hexadecimal in capitals, `-` for
// none. LETTERS are lower-case letters with nothing between them, `-` for none; each stands for the payload that was last named so, or for an empty one.
//   p LETTER PAYLOAD                        names a payload; the noise decoder's answer: mode and ambient level, or the refusal
//   w WIDTH LETTERS                         opens a window and hands in what the letters name: its counts at first and behind each letter, off, anc, ambient
//                                           and level joined by commas; a payload that is refused is told by its refusal, and not handed in
//   s WIDTH OFF ANC AMBIENT LEVEL LETTERS   the same from a window with these fields, which is not opened; behind the counts its fields at the end
#![tactic(auto)]

mod calls;
mod cases;

fn main(rt: HostRuntime) {
    let mut input = replay::room();
    let n = replay::read_full(&mut rt.stdin(), &mut input);
    cases::run(&rt, &input[..n]);
}
