// The calls `write` and `read` of the source's usb_device_impl/mod.rs: what they share, their tests, endpoint 0, the rest (specs/), and
// document 01's rows and sentences about them as laws (proofs/). No function: peek, usb_device_write and usb_device_read have them.

#![tactic(auto)]

use record::Refusal;

// What the tests come to, in three cases: of the refusals Blocked, reply 6, is the one that stores. Not a Reply<()> whose WouldBlock says so: that is no
// plainer, as `write_by`, `read_by` and each proof by cases of a verdict would have a case for each of the twelve refusals.
#[derive(Clone, Copy)]
pub enum Verdict {
    Clear,
    Blocked,
    Refused(Refusal),
}
