// What an entry of a trace does and what is reported of it, a step, the whole report, as definitions (specs/); and what they come to, as laws
// (proofs/). No function: trace_answers, trace_act and trace_step have them.

#![tactic(auto)]

use record::Record;

// The record, how many stores stand in the list, and how long the line is.
#[derive(Clone, Copy)]
pub struct Acted {
    pub record: Record,
    pub stores: usize,
    pub len: usize,
}

// What stood at the place: an entry, whose line has so many bytes and after which the next one begins, the end, or something bad.
// Three cases that each lead to another line, two of which are no error of a caller's: no Option or Result has them without one inside the other.
#[derive(Clone, Copy)]
pub enum Came {
    Line(usize, usize),
    End,
    Bad,
}

// `stores` is how many stores the entry's call put into the list.
#[derive(Clone, Copy)]
pub struct Stepped {
    pub record: Record,
    pub came: Came,
    pub stores: usize,
}
