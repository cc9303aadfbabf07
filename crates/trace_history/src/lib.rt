// What a trace does as a history of operations, so that demands 1 and 3 speak of it: specs/ and proofs/, no code.

#![tactic(auto)]
