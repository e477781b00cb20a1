// What the program prints.
pub fn complain(rt: HostRuntime, text: &[u8]) {
    let _ = rt.stderr().write_all(text);
}

pub fn print(rt: HostRuntime, lines: &[u8]) -> bool {
    let written = rt.stdout().write_all(lines).is_ok();
    if !written {
        complain(rt, b"modes: cannot write to standard output\n");
    }
    written
}
