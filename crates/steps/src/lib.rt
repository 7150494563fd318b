// Laws of the steps of a row's state: what they read, what they leave alone, and that they keep a valid row valid. No code.
#![tactic(auto)]
