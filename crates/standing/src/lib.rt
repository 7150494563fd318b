// Laws of the functions of positions at the positions of rows. No code.
#![tactic(auto)]
