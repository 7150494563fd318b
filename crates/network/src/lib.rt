// Settling over any network: definitions and laws, in specs/. No code.
#![tactic(auto)]
