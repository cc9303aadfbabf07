// The functions of the record: the fresh one, where each endpoint's area lies, how much must be lent, and what every call tests first.

#![tactic(auto)]

ghost use Rattle.std.specs.Prelude.{◌≡◌, ◌+◌, ◌≤◌, ◌<◌, Err};
ghost use Rattle.record.specs.Record.{fresh_record, area_in, need_in, flags_sound, passes, reply_number, admission_by, endpoints_in};

use board::{Board, Direction, Span};
use control_state::ControlState;
use endpoints::EndpointData;
use record::{Flags, Ran, Record, Refusal, Reply};

// Document 01's number of an answer.
pub fn reply_number(a: Reply<()>) -> u8
    ensures { result ≡ reply_number a }
{
    match a {
        Ok(()) => 0,
        Err(x) => u8::from(x),
    }
}

// Registers 0, nothing waiting, endpoints unused, Idle, flags down.
pub fn fresh(b: Board) -> Record
    ensures { result ≡ fresh_record b }
{
    Record {
        regs: regs::fresh(b),
        endpoints: [EndpointData::default(); 6],
        control_state: ControlState::new(),
        irq: Flags::default(),
    }
}

// Where an endpoint's area lies is asked here and nowhere else.
// (`area`, `need` and `endpoints` are board's, with clauses over the record's own definitions, which board does not know.)
pub fn area(b: Board, e: u8, d: Direction) -> Span
    ensures { (result ≡ area_in b e d) × (result.start + result.size ≤ need_in b) × (result.size < 65536) }
{
    board::area(b, e, d)
}

// How many bytes of FIFO memory a call must be lent.
pub fn need(b: Board) -> usize
    ensures { result ≡ need_in b }
{
    board::need(b)
}

// And how many numbers of a list: it must hold 128 stores, three numbers each.
pub const LIST: usize = 384;

// How many endpoints there are: the bound of every endpoint number.
pub fn endpoints(b: Board) -> u8
    ensures { (result ≡ endpoints_in b) × (result ≤ 6) }
{
    board::endpoints(b)
}

// No flag above the last endpoint's.
fn flags_sound(b: Board, f: Flags) -> bool
    ensures { result ≡ flags_sound b f }
{
    let n = board::endpoints(b);
    let bound = 1u16 << n;
    (f.ep_tx < bound) & (f.ep_rx < bound)
}

// Reply 16's test: every call and event that takes a record refuses one that does not pass.
// (By parts, as all below a public call: a record that is handed on is copied. docs/DECISIONS.md, 'Parts, not records'.)
pub fn sound(b: Board, w: &[u16; 46], f: Flags) -> bool
    ensures { result ≡ passes b w.now f }
{
    let s = board::sizes(b);
    regs::sound(w, &s, board::endpoints(b)) & flags_sound(b, f)
}

// The three tests that come first in every call, in their order: 15, 16, 8.
// (`short` and `beyond` come as bools: `admission_by`, which each call's definition names, is over the three tests so.)
pub fn admit(short: bool, b: Board, w: &[u16; 46], f: Flags, beyond: bool) -> Reply<()>
    ensures { result ≡ admission_by short (passes b w.now f) beyond }
{
    if short {
        return Err(Refusal::TooLittleLent);
    }
    if !sound(b, w, f) {
        return Err(Refusal::BadRecord);
    }
    if beyond {
        return Err(Refusal::NoSuchEndpoint);
    }
    Ok(())
}

// What a refused call leaves: nothing has changed, and no store stands in the list.
pub fn refused<T>(x: Refusal) -> Ran<Reply<T>>
    ensures { result ≡ record { answer = Err x; n = 0 } }
{
    Ran {
        answer: Err(x),
        n: 0,
    }
}
