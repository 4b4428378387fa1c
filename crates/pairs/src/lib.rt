// Call pairs: two Thumb halfwords that are one call. Their line, reading it back, and the halves of a run that lack their partner.
#![tactic(auto, using(text::proofs::Puts::written), unfolding(crate::specs::Print::pair_text))]

pub mod print;
pub mod read;
pub mod run;
