// The checksum from the far end, for whoever fills a frame from its last byte to its first.
#![tactic(auto)]

mod from_end;

pub use from_end::checksum_from_end;
