// The call `poll` of the source's usb_device_impl/mod.rs: the walk of the receive flags, endpoint 0, the steps before a round (specs/), and
// document 01's rows and sentences about them as laws (proofs/). No function: poll_walk, poll_zero and usb_device_poll have them.

#![tactic(auto)]

// The masks of a Data answer, a bit for each endpoint.
#[derive(Clone, Copy)]
pub struct Masks {
    pub ep_out: u16,
    pub ep_in_complete: u16,
    pub ep_setup: u16,
}

#[derive(Clone, Copy)]
pub enum PollResult {
    None,
    Data(Masks),
    Reset,
    Resume,
    Suspend,
}
