// Runs the calls of `frame` on the cases of standard input and prints an answer a line.
//
// A case is a line: a letter and its fields, each after one blank. Numbers are decimal, BYTES are hexadecimal in capitals, `-` for none. Every buffer
// that is lent is M bytes long and filled by the rule of seed 84 before the call; the answer is followed by all that it holds after it.
//   s BYTES                            checksum
//   o SUM BYTES                        checksum from the end, onto SUM
//   c BYTES                            the same for every cut of BYTES: the end onto 0, and the front onto the end's sum
//   k LEN SEED                         the same for every cut of LEN bytes of the rule of SEED
//   t N                                the data type of the byte N, and its byte
//   e M BYTES                          escape
//   u M BYTES                          unescape
//   v BYTES                            unescape of BYTES and one byte more, for each of the 256; the sum of the answers
//   w BYTES                            the same for 3C 3D 3E 2C 2D 2E 41
//   a M N                              ack of the sequence N
//   f M BYTES                          unpack in a work area of M bytes
//   p M W TYPE SEQ LEN SEED            pack LEN bytes of the rule of SEED into M bytes; if accepted, unpack the frame in W bytes.
//                                      A TYPE of 256 and more is Unknown(TYPE - 256)
//   d M W TYPE SEQ LEN SEED AT BYTE    the same with BYTE put at the place AT of the frame; only unpack's answer is printed
#![tactic(auto)]

mod calls;
mod lines;

fn main(rt: HostRuntime) {
    let mut input = replay::room();
    let n = replay::read_full(&mut rt.stdin(), &mut input);
    lines::run(&rt, &input[..n]);
}
