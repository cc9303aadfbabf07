// The whole record: registers, endpoints, control state and interrupt flags. It takes the place of the source's `UsbdBus` and of its
// statics, and goes in and out of every call by value. Types (here), what every call tests first (specs/), laws (proofs/). No function
// but a conversion and what is derived: record_ops has them.

#![tactic(auto)]

ghost use Rattle.std.specs.Prelude.{◌≡◌};
ghost use Rattle.record.specs.Record.{refusal_number};

use control_state::ControlState;
use endpoints::EndpointData;
use register_file::Regs;

// The source's atomics IRQ_RESET, IRQ_SUSPEND, IRQ_RESUME, IRQ_EP0, IRQ_EP_TX and IRQ_EP_RX.
#[derive(Clone, Copy, Default)]
pub struct Flags {
    pub reset: bool,
    pub suspend: bool,
    pub resume: bool,
    pub ep0: bool,
    pub ep_tx: u16,
    pub ep_rx: u16,
}

#[derive(Clone, Copy)]
pub struct Record {
    pub regs: Regs,
    pub endpoints: [EndpointData; 6],
    pub control_state: ControlState,
    pub irq: Flags,
}

// Why a call is refused: document 01's replies 6 to 17, and document 02's from 18 on. (Replies 1 to 5 are alloc_endpoint's own.)
#[derive(Clone, Copy, Debug, PartialEq, Eq)]
pub enum Refusal {
    // 6: write, and the last packet is not collected; read, and none waits
    WouldBlock,
    // 7: the call does nothing on this chip
    Unsupported,
    // 8
    NoSuchEndpoint,
    // 9: longer than its area
    TooLong,
    // 11: endpoint 0 takes no such write in its state
    NotWritable,
    // 12: endpoint 0 has nothing to read in its state
    NotReadable,
    // 13: a Setup packet or its buffer is not of eight bytes
    NotSetup,
    // 14
    BadAddress,
    // 15: FIFO buffer or list too short
    TooLittleLent,
    // 16
    BadRecord,
    // 17: arrival while one waits, collection with none
    OutOfTurn,
    // 18: the caller's buffer is shorter than the packet that waits; the trait's name for it
    BufferOverflow,
}

// Document 01's number, and document 02's.
impl From<Refusal> for u8 {
    ghost from_gives = { λ x n. n ≡ refusal_number x };

    fn from(x: Refusal) -> u8 {
        match x {
            Refusal::WouldBlock => 6,
            Refusal::Unsupported => 7,
            Refusal::NoSuchEndpoint => 8,
            Refusal::TooLong => 9,
            Refusal::NotWritable => 11,
            Refusal::NotReadable => 12,
            Refusal::NotSetup => 13,
            Refusal::BadAddress => 14,
            Refusal::TooLittleLent => 15,
            Refusal::BadRecord => 16,
            Refusal::OutOfTurn => 17,
            Refusal::BufferOverflow => 18,
        }
    }
}

// The answer of a call or event that gives a value T, or none, (): that value, or why it is refused.
pub type Reply<T> = Result<T, Refusal>;

// What a call gives back to which a list is lent. The record stands first: so it is copied in one go (bench/RESULTS.md).
#[derive(Clone, Copy)]
pub struct Called<A> {
    pub record: Record,
    pub stores: usize,
    pub answer: A,
}

// What runs below such a call gives back, beside what it has changed in place: the answer, and how many stores stand in the list.
#[derive(Clone, Copy)]
pub struct Ran<A> {
    pub answer: A,
    pub n: usize,
}

// What `alloc_ep`, `on_interrupt` and the host's events give back: no list is lent.
#[derive(Clone, Copy)]
pub struct Answered<A> {
    pub record: Record,
    pub answer: A,
}
