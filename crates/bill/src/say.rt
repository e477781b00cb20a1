// What the program prints.
pub fn complain(rt: HostRuntime, text: &[u8]) {
    let _ = rt.stderr().write_all(text);
}

// Tells what is wrong with a line, by its number.
pub fn complain_of(rt: HostRuntime, number: u64, what: &[u8]) {
    complain(rt, b"bill: line ");
    let _ = rt.stderr().print(number);
    complain(rt, what);
}

pub fn tell(rt: HostRuntime, name: &[u8], n: u64) -> bool {
    rt.stdout().write_all(name).is_ok()
        && rt.stdout().print(n).is_ok()
        && rt.stdout().write_all(b"\n").is_ok()
}
