// `on_interrupt` of the source: it reads the three interrupt registers, which clears them, and takes what it read into the flags.

#![tactic(auto)]

ghost use Rattle.std.specs.Prelude.{◌≡◌, ◌<◌, ◌≤◌};
ghost use Rattle.laws.specs.Words.{bit};
ghost use Rattle.event_rules.specs.Events.{bus_bit};
ghost use Rattle.record.specs.Record.{endpoints_in};
ghost use Rattle.call_rules.specs.Interrupt.{snapshot_of, cleared, bus_taken, raised_if, endpoint_taken, taken, interrupt_call};

use board::{Board, Direction};
use call_rules::Snapshot;
use event_rules::BusEvent;
use record::{Answered, Flags, Record, Refusal, Reply};

pub fn on_interrupt(k: Record) -> Answered<Reply<()>>
    ensures { result ≡ interrupt_call k }
{
    let mut o = Answered {
        record: k,
        answer: Ok(()),
    };
    if !record_ops::sound(k.regs.board, &k.regs.words, k.irq) {
        o.answer = Err(Refusal::BadRecord);
        return o;
    }
    o.record.irq = interrupt(k.regs.board, &mut o.record.regs.words, k.irq);
    o
}

fn interrupt(b: Board, w: &mut [u16; 46], f: Flags) -> Flags
    ensures { (result ≡ taken (endpoints_in b) (snapshot_of w.old) f) × (w.new ≡ cleared w.old) }
{
    let s = snap(w);
    take(record_ops::endpoints(b), s, f)
}

fn snap(w: &mut [u16; 46]) -> Snapshot
    ensures { (result ≡ snapshot_of w.old) × (w.new ≡ cleared w.old) }
{
    let u = events::read_intrusb(w);
    let t = events::read_intr(w, Direction::In);
    let x = events::read_intr(w, Direction::Out);
    Snapshot {
        usb: u,
        tx: t,
        rx: x,
    }
}

// A snapshot, taken into the flags of a board with so many endpoints.
fn take(count: u8, s: Snapshot, f: Flags) -> Flags
    requires { count ≤ 6 }
    ensures { result ≡ taken count s f }
{
    let mut o = take_bus(s, f);
    for index in 1..count {
        o = take_endpoint(s, o, index);
    }
    o
}

// The flags of the bus, and endpoint 0's.
fn take_bus(s: Snapshot, f: Flags) -> Flags
    ensures { result ≡ bus_taken s f }
{
    let mut o = f;
    o.reset = f.reset | has_event(s.usb, BusEvent::Reset);
    o.suspend = f.suspend | has_event(s.usb, BusEvent::Suspend);
    o.resume = f.resume | has_event(s.usb, BusEvent::Resume);
    o.ep0 = f.ep0 | laws::has_bit(s.tx, 0);
    o
}

// Whether a bus event was found in the bus register.
fn has_event(usb: u16, o: BusEvent) -> bool
    ensures { result ≡ bit usb (bus_bit o) }
{
    laws::has_bit(usb, events::bus_bit(o))
}

fn take_endpoint(s: Snapshot, f: Flags, index: u8) -> Flags
    requires { index < 16 }
    ensures { result ≡ endpoint_taken s f index }
{
    let mut o = f;
    o.ep_tx = raise_if(s.tx, f.ep_tx, index);
    o.ep_rx = raise_if(s.rx, f.ep_rx, index);
    o
}

fn raise_if(read: u16, flags: u16, index: u8) -> u16
    requires { index < 16 }
    ensures { result ≡ raised_if read flags index }
{
    if laws::has_bit(read, index) {
        return laws::raise(flags, index);
    }
    flags
}
