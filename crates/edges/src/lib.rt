// What reaches what: the edges of a table, and its network. Definitions, in specs/, and laws. No code.
#![tactic(auto)]
