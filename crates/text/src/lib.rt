// How many characters bytes are, where they are text by RFC 3629.
#![tactic(auto)]

mod text;

pub use text::count_characters;
