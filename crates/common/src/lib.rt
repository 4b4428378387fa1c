// Definitions and laws that belong to no part of the machine: tests over lists and numbers, bits of a number of any width, the lowest
// number that passes a test. There is no code here: the other crates' specs/ and proofs/ cite it.
#![tactic(auto)]
