// Every public call and host event as one kind of operation, and demand 1 over all of them: specs/ and proofs/, no code.

#![tactic(auto)]
