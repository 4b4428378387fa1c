// Bytes of a line: the stand-in for Rust's `Formatter` and `write!`, and the reading of what they write.
#![tactic(auto, using(crate::proofs::Puts::puts_append), unfolding(crate::specs::Puts::puts, crate::specs::Digits::hex, crate::specs::Digits::prefixed, crate::specs::Digits::dec))]

pub mod put;
pub mod read;
