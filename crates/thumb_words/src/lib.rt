// Laws of Thumb words: words put together from fields, and their kinds. There is no code here.
#![tactic(auto)]
