// Document 01's proved table, P1 to P16, as one list under one statement: specs/ has the list, proofs/ the statement.

#![tactic(auto)]
