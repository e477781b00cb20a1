// Signed numbers by their places in a list.

// Places 0 to 255 are these numbers, 256 to 265 are -10 to -1, and 266 is any other.
pub fn place_of(n: i32) -> u16 {
    match n {
        0..=255 => n as u16,
        -10..=-1 => (266 + n) as u16,
        _ => 266,
    }
}
