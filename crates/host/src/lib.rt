// The host's events on the whole record, with document 01's refusals.
// An event takes the record by value, any numbers and any lent memory, tests what document 01 refuses before anything changes, and gives back
// its answer and the record. It stores nothing: no list is lent.

#![tactic(auto)]

ghost use Rattle.std.specs.Prelude.{◌≡◌, false, ◌<◌, length, Ok};
ghost use Rattle.laws.specs.Lists.{pasted};
ghost use Rattle.board.specs.declared.Direction.TheVariants.{Out};
ghost use Rattle.event_rules.specs.Events.{arrived, collected, missing};
ghost use Rattle.record.specs.Record.{admission_by, passes, record_sound, area_in};
ghost use Rattle.host_rules.specs.Host.{answer_by, left_by, unless, signalled, miss_refusal_in, entry_in, InBuffer, arrival_refusal_in, arrival_call, collection_refusal_in, packet_in, collect_by, collection_call, bus_reset_call, suspend_call, resume_call, setup_end_call, miss_call, underrun_call, overrun_call};

use board::{Board, Direction, Span};
use event_rules::BusEvent;
use host_rules::Signal;
use record::{Answered, Flags, Record, Refusal, Reply};
use register_file::Regs;

// The events have the names of docs/CALLS.md, a line each: four over `on_signal`, `underrun` and `overrun` over `miss`.
pub fn bus_reset(k: Record) -> Answered<Reply<()>>
    ensures { result ≡ bus_reset_call k }
{
    on_signal(k, Signal::Bus(BusEvent::Reset))
}

fn on_signal(k: Record, o: Signal) -> Answered<Reply<()>>
    ensures { result ≡ unless (admission_by false (record_sound k) false) k (signalled o k.regs.words) }
{
    let mut w = k.regs.words;
    let answer = signal_if(k.regs.board, &mut w, k.irq, o);
    Answered {
        record: Record {
            regs: Regs { words: w, ..k.regs },
            ..k
        },
        answer,
    }
}

// 16 alone can refuse it.
fn signal_if(b: Board, w: &mut [u16; 46], f: Flags, o: Signal) -> Reply<()>
    ensures { (result ≡ answer_by (admission_by false (passes b w.old f) false)) × (w.new ≡ left_by (admission_by false (passes b w.old f) false) w.old (signalled o w.old)) }
{
    record_ops::admit(false, b, w, f, false)?;
    happen(w, o);
    Ok(())
}

fn happen(w: &mut [u16; 46], o: Signal)
    ensures { w.new ≡ signalled o w.old }
{
    match o {
        Signal::Bus(e) => events::bus(w, e),
        Signal::SetupEnd => events::setup_end(w),
    }
}

pub fn suspend(k: Record) -> Answered<Reply<()>>
    ensures { result ≡ suspend_call k }
{
    on_signal(k, Signal::Bus(BusEvent::Suspend))
}

pub fn resume(k: Record) -> Answered<Reply<()>>
    ensures { result ≡ resume_call k }
{
    on_signal(k, Signal::Bus(BusEvent::Resume))
}

pub fn setup_end(k: Record) -> Answered<Reply<()>>
    ensures { result ≡ setup_end_call k }
{
    on_signal(k, Signal::SetupEnd)
}

pub fn underrun(k: Record, ep: u8) -> Answered<Reply<()>>
    ensures { result ≡ underrun_call k ep }
{
    miss(k, ep, Direction::In)
}

fn miss(k: Record, ep: u8, d: Direction) -> Answered<Reply<()>>
    ensures { result ≡ miss_call k ep d }
{
    let mut w = k.regs.words;
    let answer = miss_if(k.regs.board, &mut w, k.irq, ep, d);
    Answered {
        record: Record {
            regs: Regs { words: w, ..k.regs },
            ..k
        },
        answer,
    }
}

fn miss_if(b: Board, w: &mut [u16; 46], f: Flags, ep: u8, d: Direction) -> Reply<()>
    ensures { (result ≡ answer_by (miss_refusal_in b w.old f ep)) × (w.new ≡ left_by (miss_refusal_in b w.old f ep) w.old (missing w.old ep d)) }
{
    miss_refusal(b, w, f, ep)?;
    events::miss(w, ep, d);
    Ok(())
}

// Endpoint 0 has neither bit.
fn miss_refusal(b: Board, w: &[u16; 46], f: Flags, ep: u8) -> Reply<()>
    ensures { result ≡ miss_refusal_in b w.now f ep }
{
    record_ops::admit(false, b, w, f, (ep == 0) | (record_ops::endpoints(b) <= ep))
}

pub fn overrun(k: Record, ep: u8) -> Answered<Reply<()>>
    ensures { result ≡ overrun_call k ep }
{
    miss(k, ep, Direction::Out)
}

pub fn arrival(k: Record, ep: u8, bytes: &[u8], fifo: &mut [u8]) -> Answered<Reply<()>>
    ensures { record { event = result; fifo = fifo.new } ≡ arrival_call k ep bytes.now fifo.old }
{
    let mut w = k.regs.words;
    let answer = arrive_if(k.regs.board, &mut w, k.irq, ep, bytes, fifo);
    Answered {
        record: Record {
            regs: Regs { words: w, ..k.regs },
            ..k
        },
        answer,
    }
}

fn arrive_if(
    b: Board,
    w: &mut [u16; 46],
    f: Flags,
    ep: u8,
    bytes: &[u8],
    fifo: &mut [u8],
) -> Reply<()>
    ensures { let t = arrival_refusal_in b w.old f ep (length bytes.now) (length fifo.old) in (result ≡ answer_by t) × (w.new ≡ left_by t w.old (arrived w.old ep (length bytes.now))) × (fifo.new ≡ left_by t fifo.old (pasted fifo.old (area_in b ep Out).start bytes.now)) }
{
    arrival_refusal(b, w, f, ep, bytes.len(), fifo.len())?;
    let s = record_ops::area(b, ep, Direction::Out);
    events::arrive(w, ep, bytes, s, fifo);
    Ok(())
}

// Then 9, and 17 while one waits.
fn arrival_refusal(
    b: Board,
    w: &[u16; 46],
    f: Flags,
    ep: u8,
    bytes: usize,
    memory: usize,
) -> Reply<()>
    ensures { result ≡ arrival_refusal_in b w.now f ep bytes memory }
{
    admit(b, w, f, ep, memory)?;
    let s = record_ops::area(b, ep, Direction::Out);
    if s.size < bytes {
        return Err(Refusal::TooLong);
    }
    if regs::waits(w, ep, Direction::Out) {
        return Err(Refusal::OutOfTurn);
    }
    Ok(())
}

// The tests that come first in an event at an endpoint, where FIFO memory of so many bytes is lent: 15, 16, 8.
fn admit(b: Board, w: &[u16; 46], f: Flags, ep: u8, memory: usize) -> Reply<()>
    ensures { result ≡ entry_in b w.now f ep memory }
{
    record_ops::admit(
        memory < record_ops::need(b),
        b,
        w,
        f,
        record_ops::endpoints(b) <= ep,
    )
}

// The buffer is lent so that the place that is given lies in it; its bytes are the caller's to read.
pub fn collection(k: Record, ep: u8, fifo: &[u8]) -> Answered<Reply<Span>>
    ensures { (result ≡ collection_call k ep fifo.now) × InBuffer result.answer fifo.now }
{
    let mut w = k.regs.words;
    let answer = collect_if(k.regs.board, &mut w, k.irq, ep, fifo.len());
    Answered {
        record: Record {
            regs: Regs { words: w, ..k.regs },
            ..k
        },
        answer,
    }
}

fn collect_if(b: Board, w: &mut [u16; 46], f: Flags, ep: u8, memory: usize) -> Reply<Span>
    ensures { (result ≡ collect_by (collection_refusal_in b w.old f ep memory) (packet_in b w.old ep)) × (w.new ≡ left_by (collection_refusal_in b w.old f ep memory) w.old (collected w.old ep)) }
{
    collection_refusal(b, w, f, ep, memory)?;
    Ok(collect(b, w, ep))
}

// 17 with none.
fn collection_refusal(b: Board, w: &[u16; 46], f: Flags, ep: u8, memory: usize) -> Reply<()>
    ensures { result ≡ collection_refusal_in b w.now f ep memory }
{
    admit(b, w, f, ep, memory)?;
    if regs::waits(w, ep, Direction::In) {
        return Ok(());
    }
    Err(Refusal::OutOfTurn)
}

// The length is asked before the packet is dropped; where it lies is the board's to say.
fn collect(b: Board, w: &mut [u16; 46], ep: u8) -> Span
    requires { ep < 6 }
    ensures { (Ok result ≡ packet_in b w.old ep) × (w.new ≡ collected w.old ep) }
{
    let size = regs::waiting_len(w, ep, Direction::In) as usize;
    events::collect(w, ep);
    Span {
        start: record_ops::area(b, ep, Direction::In).start,
        size,
    }
}
