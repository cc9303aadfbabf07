// Document 01's register model: a register file, as the chip has one. The registers are numbers in one array.
//
// A public call has the array by value, in its record; below it every function is lent the array, and changes it in place.
// The driver above knows this crate by its contracts and its exported laws alone.

#![tactic(auto)]

ghost use Rattle.std.specs.Prelude.{◌≡◌, ◌<◌};
ghost use Rattle.register_file.specs.Registers.{fresh_regs, side_word, side_in, with_side_in, side_at, with_side};
ghost use Rattle.register_file.specs.Control.{csr0l_stored, csr0h_flushed};
ghost use Rattle.register_file.specs.Sound.{words_below, sides_below, regs_sound};

use board::{Board, Direction};
use csr::{Csr0l, Side};
use register_file::Regs;

// Places in the array: the registers that are there once; of the interrupt registers what is raised and not read yet (of the bus suspend is
// bit 0, resume bit 1, reset bit 2); SetupEnd of CSR0L.
pub const INDEX: usize = 0;

pub const FADDR: usize = 1;

pub const POWER: usize = 2;

pub const INTRUSBE: usize = 3;

pub const INTRTXE: usize = 4;

pub const INTRRXE: usize = 5;

pub const INTRUSB: usize = 6;

pub const INTRTX: usize = 7;

pub const INTRRX: usize = 8;

pub const SETUPEND: usize = 9;

// Then twelve of each, an endpoint's transmit side before its receive side: the control bits, the waiting packet's length, maxp.
const CSR: usize = 10;

const LEN: usize = 22;

const MAXP: usize = 34;

// Registers 0, nothing waiting.
#[tactic(auto, unfolding(register_file::specs::Registers::fresh_regs, register_file::specs::Registers::fresh_file))]
pub fn fresh(b: Board) -> Regs
    ensures { result ≡ fresh_regs b }
{
    Regs {
        board: b,
        words: [0u16; 46],
    }
}

// A side's control bits as one number. (No `From` of a Side: it would stand in `csr`, and what weighs the bits stands above it, in csr_ops.)
#[tactic(auto, unfolding(register_file::specs::Registers::side_word))]
fn side_word(s: Side) -> u16
    ensures { result ≡ side_word s }
{
    csr_ops::weight(s.ready, 1)
        + csr_ops::weight(s.missed, 2)
        + csr_ops::weight(s.stall, 4)
        + csr_ops::weight(s.stalled, 8)
        + csr_ops::weight(s.iso, 16)
}

// The side in a place, and another state of it.
#[tactic(auto, unfolding(register_file::specs::Registers::side_in, register_file::specs::Registers::side_of))]
fn side_in(w: &[u16; 46], i: usize) -> Side
    requires { i < 12 }
    ensures { result ≡ side_in w.now i }
{
    let c = w[CSR + i];
    Side {
        ready: laws::has_bit(c, 0),
        missed: laws::has_bit(c, 1),
        stall: laws::has_bit(c, 2),
        stalled: laws::has_bit(c, 3),
        iso: laws::has_bit(c, 4),
        maxp: w[MAXP + i],
        len: w[LEN + i],
    }
}

#[tactic(auto, unfolding(register_file::specs::Registers::with_side_in))]
fn put_side_in(w: &mut [u16; 46], i: usize, s: Side)
    requires { i < 12 }
    ensures { w.new ≡ with_side_in w.old i s }
{
    w[CSR + i] = side_word(s);
    w[MAXP + i] = s.maxp;
    w[LEN + i] = s.len;
}

// The side of an endpoint by its number. Past the last endpoint nothing is there.
// (Endpoint and direction are the source's two arguments: a struct of both would be taken apart in each function that it reaches.)
pub fn side_at(w: &[u16; 46], e: u16, d: Direction) -> Side
    ensures { result ≡ side_at w.now e d }
{
    if e < 6 {
        return side_in(w, board::place_of(e as u8, d));
    }
    Side::default()
}

// Whether a packet waits at a side.
pub fn waits(w: &[u16; 46], e: u8, d: Direction) -> bool
    ensures { result ≡ (side_at w.now e d).ready }
{
    let s = side_at(w, e as u16, d);
    s.ready
}

// The waiting packet's length.
pub fn waiting_len(w: &[u16; 46], e: u8, d: Direction) -> u16
    ensures { result ≡ (side_at w.now e d).len }
{
    let s = side_at(w, e as u16, d);
    s.len
}

// Another state of a side. Past the last endpoint nothing changes.
// (Who changes a side reads it, sets a field and puts it back: of a closure for that one line each contract would have to say what it gave.)
pub fn put_side(w: &mut [u16; 46], e: u16, d: Direction, s: Side)
    ensures { w.new ≡ with_side w.old e d s }
{
    if e < 6 {
        put_side_in(w, board::place_of(e as u8, d), s);
        return;
    }
}

// What a store to CSR0L changes.
pub fn store_csr0l(w: &mut [u16; 46], v: Csr0l)
    ensures { w.new ≡ csr0l_stored v w.old }
{
    let tx = csr_ops::zero_tx_stored(v, side_at(w, 0, Direction::In));
    let rx = csr_ops::drop_packet(v.serviced_rx_pkt_rdy, side_at(w, 0, Direction::Out));
    let ended = (w[SETUPEND] == 1) & !v.serviced_setup_end;
    put_side(w, 0, Direction::In, tx);
    put_side(w, 0, Direction::Out, rx);
    w[SETUPEND] = u16::from(ended);
}

// And the flush of CSR0H.
pub fn flush_csr0h(w: &mut [u16; 46])
    ensures { w.new ≡ csr0h_flushed w.old }
{
    let tx = csr_ops::drop_packet(true, side_at(w, 0, Direction::In));
    let rx = csr_ops::drop_packet(true, side_at(w, 0, Direction::Out));
    put_side(w, 0, Direction::In, tx);
    put_side(w, 0, Direction::Out, rx);
}

// Reply 16 of the sides, one test over all of them after the other and no early end: so each is made several at a time.
fn words_sound(w: &[u16; 46]) -> bool
    ensures { result ≡ words_below w.now 12 }
{
    let mut ok = true;
    for c in &w[CSR..LEN] {
        ok &= *c < 32;
    }
    ok
}

fn sides_sound(w: &[u16; 46], sizes: &[u16; 12]) -> bool
    ensures { result ≡ sides_below sizes.now w.now 12 }
{
    let mut ok = true;
    for (i, size) in sizes.iter().enumerate() {
        ok &= csr_ops::side_sound(*size, side_in(w, i));
    }
    ok
}

// The sizes stand in the order of the areas; count is how many endpoints there are.
pub fn sound(w: &[u16; 46], sizes: &[u16; 12], count: u8) -> bool
    ensures { result ≡ regs_sound sizes.now count w.now }
{
    (w[INDEX] < count as u16)
        & (w[FADDR] <= 127)
        & (w[SETUPEND] <= 1)
        & words_sound(w)
        & sides_sound(w, sizes)
}
