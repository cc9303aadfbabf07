// What the source keeps in its common_impl.rs, as definitions (specs/): for the bus and for stalling, enabling an endpoint, the overrun
// check; and what each leaves, as laws (proofs/). No function: common_impl, enabling and overrun have them.

#![tactic(auto)]

// How many stores stand in the list, and what was read.
#[derive(Clone, Copy)]
pub struct Stalled {
    pub n: usize,
    pub stalled: bool,
}
