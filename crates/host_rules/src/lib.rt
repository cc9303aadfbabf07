// The host's events as public calls: what each gives back on the whole record (specs/), and document 01's rows about them as laws (proofs/).
// No function: host has them.

#![tactic(auto)]

use event_rules::BusEvent;

// What happens at no endpoint: a bus event, or SetupEnd.
// (An enum and no closure: `signalled`, and with it each of the four calls' definitions, is over it.)
#[derive(Clone, Copy)]
pub enum Signal {
    Bus(BusEvent),
    SetupEnd,
}
