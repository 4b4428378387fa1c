// Reading lines back: the parts of a line that both readers take, a line as words with what separates them, and the lowest of several candidates.
#![tactic(auto)]

pub mod parts;
pub mod shown;
