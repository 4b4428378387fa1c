// Laws of ARM words: how each kind is put together from fields. There is no code here.
#![tactic(auto)]
