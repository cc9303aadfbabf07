// What each host event does to the register file, and the interrupt registers, which clear when read.

#![tactic(auto)]

ghost use Rattle.std.specs.Prelude.{◌≡◌, ◌+◌, ◌≤◌, ◌<◌, length};
ghost use Rattle.laws.specs.Lists.{pasted};
ghost use Rattle.register_file.specs.Registers.{intrusb, intr_of, with_intr};
ghost use Rattle.event_rules.specs.Events.{interrupting, waiting_at, arrived, collected, bus_bit, bus_raised, setup_ended, missing, intrusb_cleared, intr_cleared};

use board::{Direction, Span};
use event_rules::BusEvent;

#[tactic(auto, unfolding(register_file::specs::Registers::intr_of))]
fn intr_of(w: &[u16; 46], d: Direction) -> u16
    ensures { result ≡ intr_of w.now d }
{
    match d {
        Direction::Out => w[regs::INTRRX],
        Direction::In => w[regs::INTRTX],
    }
}

#[tactic(auto, unfolding(register_file::specs::Registers::with_intr))]
fn put_intr(w: &mut [u16; 46], d: Direction, v: u16)
    ensures { w.new ≡ with_intr w.old d v }
{
    match d {
        Direction::Out => {
            w[regs::INTRRX] = v;
        }
        Direction::In => {
            w[regs::INTRTX] = v;
        }
    }
}

// (`modify_intre` of stores raises a bit likewise, in the other pair of words: one function would be given both that read and put it.)
#[tactic(auto, unfolding(event_rules::specs::Events::interrupting))]
fn interrupt(w: &mut [u16; 46], d: Direction, e: u8)
    requires { e < 16 }
    ensures { w.new ≡ interrupting w.old d e }
{
    let v = laws::raise(intr_of(w, d), e);
    put_intr(w, d, v);
}

#[tactic(auto, unfolding(event_rules::specs::Events::waiting_at))]
fn wait_at(w: &mut [u16; 46], e: u8, n: u16)
    ensures { w.new ≡ waiting_at w.old e n }
{
    let mut s = regs::side_at(w, e as u16, Direction::Out);
    s.ready = true;
    s.len = n;
    regs::put_side(w, e as u16, Direction::Out, s);
}

#[tactic(auto, unfolding(event_rules::specs::Events::arrived))]
fn arrival_zero(w: &mut [u16; 46], n: u16)
    ensures { w.new ≡ arrived w.old 0 n }
{
    let mut tx = regs::side_at(w, 0, Direction::In);
    tx.stall = false;
    wait_at(w, 0, n);
    regs::put_side(w, 0, Direction::In, tx);
    interrupt(w, Direction::In, 0);
}

#[tactic(auto, unfolding(event_rules::specs::Events::arrived))]
fn arrival(w: &mut [u16; 46], e: u8, n: u16)
    requires { e < 16 }
    ensures { w.new ≡ arrived w.old e n }
{
    if e == 0 {
        arrival_zero(w, n);
        return;
    }
    wait_at(w, e, n);
    interrupt(w, Direction::Out, e);
}

// A packet arrives: its bytes in the area, its ready bit, its interrupt.
pub fn arrive(w: &mut [u16; 46], e: u8, bytes: &[u8], area: Span, fifo: &mut [u8])
    requires { (e < 16) × (length bytes.now < 65536) × (length bytes.now ≤ area.size) × (area.start + area.size ≤ length fifo.old) }
    ensures { (w.new ≡ arrived w.old e (length bytes.now)) × (fifo.new ≡ pasted fifo.old area.start bytes.now) }
{
    fifo::put_bytes(fifo, area, bytes);
    arrival(w, e, bytes.len() as u16);
}

// The host has taken the packet; its place and length are asked before.
#[tactic(auto, unfolding(event_rules::specs::Events::collected))]
pub fn collect(w: &mut [u16; 46], e: u8)
    requires { e < 16 }
    ensures { w.new ≡ collected w.old e }
{
    let s = csr_ops::drop_packet(true, regs::side_at(w, e as u16, Direction::In));
    regs::put_side(w, e as u16, Direction::In, s);
    interrupt(w, Direction::In, e);
}

// The bus events stand in the order of their bits.
pub fn bus_bit(o: BusEvent) -> u8
    ensures { (result ≡ bus_bit o) × (result < 16) }
{
    o as u8
}

#[tactic(auto, unfolding(event_rules::specs::Events::bus_raised, register_file::specs::Registers::intrusb, register_file::specs::Registers::with_intrusb))]
pub fn bus(w: &mut [u16; 46], o: BusEvent)
    ensures { w.new ≡ bus_raised o w.old }
{
    let v = laws::raise(w[regs::INTRUSB], bus_bit(o));
    w[regs::INTRUSB] = v;
}

#[tactic(auto, unfolding(event_rules::specs::Events::setup_ended, register_file::specs::Registers::with_setupend))]
pub fn setup_end(w: &mut [u16; 46])
    ensures { w.new ≡ setup_ended w.old }
{
    w[regs::SETUPEND] = 1;
    interrupt(w, Direction::In, 0);
}

// Underrun of a transmit side, overrun of a receive side.
#[tactic(auto, unfolding(event_rules::specs::Events::missing))]
pub fn miss(w: &mut [u16; 46], e: u8, d: Direction)
    ensures { w.new ≡ missing w.old e d }
{
    let mut s = regs::side_at(w, e as u16, d);
    s.missed = true;
    regs::put_side(w, e as u16, d, s);
}

// The bus interrupt register as it was; it is clear after the read.
#[tactic(auto, unfolding(event_rules::specs::Events::intrusb_cleared, register_file::specs::Registers::intrusb, register_file::specs::Registers::with_intrusb))]
pub fn read_intrusb(w: &mut [u16; 46]) -> u16
    ensures { (result ≡ intrusb w.old) × (w.new ≡ intrusb_cleared w.old) }
{
    std::mem::replace(&mut w[regs::INTRUSB], 0)
}

// An interrupt register of a direction, likewise.
// (No `mem::take` here: which of the two words it is, `intr_of` and `put_intr` say, and an element lent by a match would say it a third time.)
#[tactic(auto, unfolding(event_rules::specs::Events::intr_cleared))]
pub fn read_intr(w: &mut [u16; 46], d: Direction) -> u16
    ensures { (result ≡ intr_of w.old d) × (w.new ≡ intr_cleared w.old d) }
{
    let v = intr_of(w, d);
    put_intr(w, d, 0);
    v
}
