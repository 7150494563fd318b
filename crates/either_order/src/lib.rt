// Two calls on one table, one after the other, in either order: definitions, in specs/, and laws. No code.
#![tactic(auto)]
