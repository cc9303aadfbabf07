// What each host event does to the register file (specs/Events.antt), and one account of what each changes, raises and leaves
// (specs/Promise.antt), proved of all of them (proofs/). No function: events has them.

#![tactic(auto)]

// What happens on the bus: each has its bit of the bus interrupt register.
#[derive(Clone, Copy)]
pub enum BusEvent {
    Suspend,
    Resume,
    Reset,
}
