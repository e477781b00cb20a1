// What a bill comes to, in cents. It has a module of its own, since one module may not have both `Bill` and `bill`.
#[derive(Clone, Copy, Debug, PartialEq, Eq)]
pub struct Bill {
    pub net: u64,
    pub total: u64,
}
