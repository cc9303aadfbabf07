// A record from the 96 numbers that a detail report prints of it, each in four bytes, low byte first: where the comparison of single
// calls begins. Promised: the record is `record_of` of the numbers (detail_rules, specs/Given.antt), and a report prints these numbers of it,
// whatever the record was whose numbers they are (`back` and `again` there). Of numbers that no report prints, a word keeps 16 bits, a control
// register the bits that it reads, and a mark is 1 or not.

#![tactic(auto)]

ghost use Rattle.std.specs.Prelude.{◌≡◌, ◌+◌, ◌≤◌, ◌<◌, get_or};
ghost use Rattle.detail_rules.specs.Given.{numbers_of, long_at, word_at, truth_at, with_chip, zero_tx, zero_rx, with_zero, base_of, side_from, with_sides, file_of, data_of, datas_of, state_of, record_of};

use board::{Board, Direction};
use control_state::{ControlState, ControlStateEnum};
use csr::Side;
use endpoints::{EndpointConfig, EndpointData};
use record::{Flags, Record};
use register_file::Regs;

#[tactic(auto, unfolding(detail_rules::specs::Given::record_of, detail_rules::specs::Given::control_of, detail_rules::specs::Given::flags_of))]
pub fn record_from(h: &[u8]) -> Record
    ensures { result ≡ record_of (numbers_of h.now) }
{
    let w = words(h);
    let es = endpoints(h);
    let s = state_from(long(h, 88));
    Record {
        regs: Regs {
            board: Board::Display,
            words: w,
        },
        endpoints: es,
        control_state: ControlState {
            state: s,
            tx_len: long(h, 89),
        },
        irq: Flags {
            reset: truth(h, 90),
            suspend: truth(h, 91),
            resume: truth(h, 92),
            ep0: truth(h, 93),
            ep_tx: word(h, 94),
            ep_rx: word(h, 95),
        },
    }
}

fn words(h: &[u8]) -> [u16; 46]
    ensures { result ≡ file_of (numbers_of h.now) }
{
    let mut w = [0u16; 46];
    put_chip(&mut w, h);
    put_zero(&mut w, h);
    for e in 1..6 {
        put_sides(&mut w, h, e);
    }
    w
}

// The registers that are there once.
fn put_chip(w: &mut [u16; 46], h: &[u8])
    ensures { w.new ≡ with_chip (numbers_of h.now) w.old }
{
    w[regs::FADDR] = word(h, 0);
    w[regs::POWER] = word(h, 1);
    w[regs::INDEX] = word(h, 2);
    w[regs::INTRTXE] = word(h, 3);
    w[regs::INTRRXE] = word(h, 4);
    w[regs::INTRUSBE] = word(h, 5);
    w[regs::INTRUSB] = word(h, 6);
    w[regs::INTRTX] = word(h, 7);
    w[regs::INTRRX] = word(h, 8);
}

// (The head is handed on as a slice: a struct that holds it would have to say in each contract that it is the same still.)
#[tactic(auto, unfolding(detail_rules::specs::Given::word_at))]
fn word(h: &[u8], i: usize) -> u16
    requires { i < 96 }
    ensures { result ≡ word_at (numbers_of h.now) i }
{
    (long(h, i) % 65536) as u16
}

fn long(h: &[u8], i: usize) -> u32
    requires { i < 96 }
    ensures { result ≡ long_at (numbers_of h.now) i }
{
    let at = 4 * i;
    u32::from_le_bytes([
        byte(h, at),
        byte(h, at + 1),
        byte(h, at + 2),
        byte(h, at + 3),
    ])
}

// Past the head's end stand zeros.
fn byte(h: &[u8], at: usize) -> u8
    ensures { result ≡ get_or h.now at 0 }
{
    h.get(at).copied().unwrap_or(0)
}

#[tactic(auto, unfolding(detail_rules::specs::Given::with_zero, register_file::specs::Registers::with_setupend))]
fn put_zero(w: &mut [u16; 46], h: &[u8])
    ensures { w.new ≡ with_zero (numbers_of h.now) w.old }
{
    let v = word(h, 9);
    regs::put_side(w, 0, Direction::In, zero_tx(h, v));
    regs::put_side(w, 0, Direction::Out, zero_rx(h, v));
    w[regs::SETUPEND] = csr_ops::weight(laws::has_bit(v, 4), 1);
}

// Endpoint 0: its bits stand in CSR0L. Two functions, since only one of the sides has bits for a stall.
#[tactic(auto, unfolding(detail_rules::specs::Given::zero_tx))]
fn zero_tx(h: &[u8], v: u16) -> Side
    requires { v ≡ word_at (numbers_of h.now) 9 }
    ensures { result ≡ zero_tx (numbers_of h.now) }
{
    Side {
        ready: laws::has_bit(v, 1),
        missed: false,
        stall: laws::has_bit(v, 5),
        stalled: laws::has_bit(v, 2),
        iso: false,
        maxp: 0,
        len: word(h, 16),
    }
}

#[tactic(auto, unfolding(detail_rules::specs::Given::zero_rx))]
fn zero_rx(h: &[u8], v: u16) -> Side
    requires { v ≡ word_at (numbers_of h.now) 9 }
    ensures { result ≡ zero_rx (numbers_of h.now) }
{
    Side {
        ready: laws::has_bit(v, 0),
        missed: false,
        stall: false,
        stalled: false,
        iso: false,
        maxp: 0,
        len: word(h, 17),
    }
}

#[tactic(auto, unfolding(detail_rules::specs::Given::with_sides))]
fn put_sides(w: &mut [u16; 46], h: &[u8], e: u16)
    requires { e < 6 }
    ensures { w.new ≡ with_sides (numbers_of h.now) e w.old }
{
    let b = base(usize::from(e));
    regs::put_side(w, e, Direction::In, side(h, b, 4));
    regs::put_side(w, e, Direction::Out, side(h, b + 1, 5));
}

// The numbers of endpoint e begin here.
fn base(e: usize) -> usize
    requires { e < 6 }
    ensures { (result ≡ base_of e) × (result ≤ 75) }
{
    10 + 13 * e
}

// A side of another endpoint, from where its TXCSRL or RXCSRL stands: every other number of it is the other side's. SentStall follows
// SendStall, whose place the two registers do not share.
#[tactic(auto, unfolding(detail_rules::specs::Given::side_from))]
fn side(h: &[u8], i: usize, stall: u8) -> Side
    requires { (i + 6 < 96) × (stall + 1 < 16) }
    ensures { result ≡ side_from (numbers_of h.now) i stall }
{
    let v = word(h, i);
    Side {
        ready: laws::has_bit(v, 0),
        missed: laws::has_bit(v, 2),
        stall: laws::has_bit(v, stall),
        stalled: laws::has_bit(v, stall + 1),
        iso: laws::has_bit(word(h, i + 2), 6),
        maxp: word(h, i + 4),
        len: word(h, i + 6),
    }
}

#[tactic(auto, unfolding(detail_rules::specs::Given::datas_of))]
fn endpoints(h: &[u8]) -> [EndpointData; 6]
    ensures { result ≡ datas_of (numbers_of h.now) }
{
    std::array::from_fn(|e| endpoint(h, e))
}

#[tactic(auto, unfolding(detail_rules::specs::Given::data_of))]
fn endpoint(h: &[u8], e: usize) -> EndpointData
    requires { e < 6 }
    ensures { result ≡ data_of (numbers_of h.now) e }
{
    let b = base(e);
    let t = trace_arguments::type_of(long(h, b + 8));
    EndpointData {
        ep_conf: EndpointConfig {
            ep_type: t,
            tx_max_packet_size: word(h, b + 9),
            rx_max_packet_size: word(h, b + 10),
        },
        used_tx: truth(h, b + 11),
        used_rx: truth(h, b + 12),
    }
}

#[tactic(auto, unfolding(detail_rules::specs::Given::truth_at))]
fn truth(h: &[u8], i: usize) -> bool
    requires { i < 96 }
    ensures { result ≡ truth_at (numbers_of h.now) i }
{
    long(h, i) == 1
}

// A function and no `From`: an impl would have to stand with the type, which knows nothing of reports.
fn state_from(n: u32) -> ControlStateEnum
    ensures { result ≡ state_of n }
{
    match n {
        0 => ControlStateEnum::Idle,
        1 => ControlStateEnum::Setup,
        2 => ControlStateEnum::DataIn,
        3 => ControlStateEnum::DataOut,
        4 => ControlStateEnum::Accepted,
        _ => ControlStateEnum::NodataPhase,
    }
}
