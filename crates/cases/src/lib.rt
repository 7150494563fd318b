// The worked examples of document 01 that are proved: the claim stands in proofs/Cases.antt. Calls on a table, with what demand 3 and their
// answers say of them, stand in proofs/Calls.antt; a month, computed, in proofs/Months.antt; look-ups on rows in and out of order in
// proofs/LookUps.antt. Of document 02, torches that charge the block above stand in proofs/Torches.antt, bulbs in proofs/Bulbs.antt, levels above 15 in
// proofs/Overdriven.antt, merges in proofs/Merges.antt, clearings in proofs/Clears.antt, redraws around a switch in proofs/Orders.antt, and feeder lists
// in proofs/Feeders.antt.
#![tactic(auto)]
