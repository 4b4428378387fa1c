// Laws of words of any width: what the rows of mask, value and kind say of a word's digits of four bits. There is no code here.
#![tactic(auto)]
