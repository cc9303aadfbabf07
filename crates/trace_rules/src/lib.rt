// Event traces as definitions: how a number stands in a trace, the arguments and entries that are found there, the text and the lines of a
// report (specs/); and document 01's sentences about them as laws (proofs/). No function: trace_reader, trace_arguments, trace_entries,
// trace_text and trace_report have them.

#![tactic(auto)]

use board::Direction;
use endpoints::EndpointType;
use event_rules::BusEvent;

// A packet of a trace: its endpoint, where its bytes start there, and how many they are.
#[derive(Clone, Copy)]
pub struct Packet {
    pub endpoint: u8,
    pub start: usize,
    pub len: usize,
}

// One case for each code, 1 to 17 in this order.
#[derive(Clone, Copy)]
pub enum Entry {
    Allocate(Direction, Option<u8>, EndpointType, u16),
    Init,
    Reset,
    Address(u8),
    Write(Packet),
    Read(u8, u16),
    Stall(u8, Direction, bool),
    IsStalled(u8, Direction),
    Poll,
    Interrupt,
    Enable,
    Arrival(Packet),
    Collect(u8),
    Bus(BusEvent),
    SetupEnd,
    Underrun(u8),
    Overrun(u8),
}

// What stands at a place of a trace: an entry with the place of the next, the end, or something bad. Three cases, none of which is an error to who steps
// through a trace: as a `Result` of an `Option` it would be unpacked in two goes.
#[derive(Clone, Copy)]
pub enum Parsed {
    Found(Entry, usize),
    End,
    Bad,
}
