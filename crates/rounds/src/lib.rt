// Demand 3 over any machine that is polled: statements (specs/) and proofs (proofs/), no code.

#![tactic(auto)]
