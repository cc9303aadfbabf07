// Every download ends once (document 02, T-12): a control read over any operations (specs/), why it ends as it does, and histories of the display that do (proofs/). No code.

#![tactic(auto)]
