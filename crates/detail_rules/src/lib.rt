// The detail report's two lines under an entry's, the stores that it listed and the record after it as 96 numbers, and the record that such numbers are
// of, as definitions (specs/); and what they come to, as laws (proofs/). No function: trace_details and trace_given have them.

#![tactic(auto)]
