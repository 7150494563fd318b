// Which rows of a table are left when those that lack a support are removed, again and again: definitions, in specs/, and laws. No code.
#![tactic(auto)]
