// Laws for reading Thumb lines back: candidates for the lowest word that prints a line. There is no code here.
#![tactic(auto)]
