// The feeder list of a table, and what replacing a row does to both: definitions, in specs/, and laws. No code.
#![tactic(auto)]
