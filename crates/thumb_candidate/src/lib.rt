// The candidate of a Thumb line and a row of its mnemonic: the word that the line's names, numbers and marks say.
#![tactic(auto)]

mod fields;
pub mod operands;
pub mod parts;
