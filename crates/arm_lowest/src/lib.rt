// Reading ARM lines back: what is promised, the candidate word of a line, and that it is the lowest word that prints the line. There is no code here.
#![tactic(auto)]
