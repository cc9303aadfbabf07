// Demand 3 over the driver's own histories: the driver as a machine (specs/), why it keeps the sentences (proofs/); demands 1 and 3 in one place (specs/Demands.antt). No code.

#![tactic(auto)]
