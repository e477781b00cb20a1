// Runs the readings of `payload` on the cases of standard input and prints an answer a line.
//
// A case is a line: a letter and its fields, each after one blank. Numbers are decimal, BYTES are hexadecimal in capitals, `-` for none.
// A payload is kept from line to line, and a reading is of its first N bytes.
//   k BYTES          keep BYTES
//   x AT BYTE        change one byte of them
//   m N              the message's parts
//   b N              battery
//   n N              noise
//   c N              noise capability
//   e N              equalizer: preset, count, steps, the shape and its bias, and the sum of the gains' places
//   p N              paired devices: the count, and the lookup of each index up to the count
//   u N INDEX        the lookup of one device
//   f N M TABLE      support functions, in M records lent; and the check that writes nothing
//   g N              general setting
//   i N              a setting's texts: the slot, and offset, length and characters of name and summary
//   y N              how many characters the bytes are
//   v N AT L         the reading of letter L for each of the 256 bytes at the place AT, by their sum
//   q N AT BT L      the same for each of ten bytes round the edges of the forms at AT and each of the 256 at BT
//   l N L            the reading of letter L for each length below N, by their sum
//   o N L            the same by its outcome, 0 or the refusal's number: each length where it becomes another, and that outcome
//   s N L            the reading of letter L of each part of the N bytes, by their sum
//   d N AT L         the reading of letter L with each part of a text in the text's place, its length byte at AT, by their sum
//   t N BYTE         the characters of strings of N bytes that begin with BYTE, by their sum: every one of 1 to 3 bytes, some of 4
#![tactic(auto)]

mod calls;
mod lines;
mod outcomes;
mod places;
mod reader;
mod records;
mod strings;
mod sums;

fn main(rt: HostRuntime) {
    let mut input = replay::room();
    let n = replay::read_full(&mut rt.stdin(), &mut input);
    lines::run(&rt, &input[..n]);
}
