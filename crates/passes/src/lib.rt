// The passes of a clearing, each of which removes the rows that the support list names: definitions, in specs/, and laws. No code.
#![tactic(auto)]
