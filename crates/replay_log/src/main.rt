// Prints the log of the bytes of standard input, which are pushed in pieces of 1, 2, 3, .. 97, 1, 2, .. bytes, with line calls after each push
// until none is found. A refusal is printed as a line of its own.
#![tactic(auto)]

mod session;

fn main(rt: HostRuntime) {
    let mut input = replay::room();
    let n = replay::read_full(&mut rt.stdin(), &mut input);
    session::run(&rt, &input[..n]);
}
