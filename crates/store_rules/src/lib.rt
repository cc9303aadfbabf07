// Every store of the source as a step from a log to a log (specs/Stores.antt), and one account of what each changes, lists and leaves
// (specs/Promise.antt), proved of all of them (proofs/). No function: stores has them.

#![tactic(auto)]
