// One entry of a trace, carried out: the call or event that it names, and its line of the report.

#![tactic(auto)]

ghost use Rattle.std.specs.Prelude.{◌≡◌, ◌≤◌, length, replicate};
ghost use Rattle.trace_rules.specs.Entries.{code_of, Within};
ghost use Rattle.calls.specs.Calls as calls;
ghost use Rattle.report_rules.specs.Shown.{Gives};
ghost use Rattle.report_rules.specs.Act.{state, bus_operation, did, acted, Acts, Lent};

use event_rules::BusEvent;
use record::{Answered, Called, Record, Reply};
use report_rules::Acted;
use trace_answers::Shown;
use trace_rules::Entry;

// A packet is handed on as a part of the trace.
// (What is lent goes on as it is: a struct that holds it would have to say in each contract that it is the same still.)
pub fn act(
    trace: &[u8],
    e: Entry,
    k: Record,
    fifo: &mut [u8],
    list: &mut [u16],
    line: &mut [u8],
) -> Acted
    requires { Lent trace.now fifo.old line.old × Within trace.now e }
    ensures { Acts line.old line.new result fifo.new list.new (code_of e) (acted trace.now e (state k fifo.old list.old)) }
{
    let code = trace_entries::code_of(e);
    match e {
        Entry::Allocate(d, w, t, n) => {
            answered(
                k,
                line,
                code,
                move |k| usb_device_alloc::alloc_ep(k, d, w, t, n),
            )
        }
        Entry::Init => called(k, list, line, code, usb_device_impl::bus_init),
        Entry::Reset => called(k, list, line, code, usb_device_reset::reset),
        Entry::Address(a) => {
            called(
                k,
                list,
                line,
                code,
                move |k, list| usb_device_impl::set_device_address(k, a, list),
            )
        }
        Entry::Write(p) => {
            let end = p.start + p.len;
            write(k, p.endpoint, &trace[p.start..end], fifo, list, line, code)
        }
        Entry::Read(ep, n) => read(k, ep, n, fifo, list, line, code),
        Entry::Stall(ep, d, on) => {
            called(
                k,
                list,
                line,
                code,
                move |k, list| usb_device_stall::set_stalled(k, ep, d, on, list),
            )
        }
        Entry::IsStalled(ep, d) => {
            called(
                k,
                list,
                line,
                code,
                move |k, list| usb_device_stall::is_stalled(k, ep, d, list),
            )
        }
        Entry::Poll => called(k, list, line, code, usb_device_poll::poll),
        Entry::Interrupt => answered(k, line, code, usb_device_interrupt::on_interrupt),
        Entry::Enable => called(k, list, line, code, usb_device_impl::enable),
        Entry::Arrival(p) => {
            let end = p.start + p.len;
            arrival(k, p.endpoint, &trace[p.start..end], fifo, line, code)
        }
        Entry::Collect(ep) => collect(k, ep, fifo, line, code),
        Entry::Bus(b) => answered(k, line, code, move |k| bus(k, b)),
        Entry::SetupEnd => answered(k, line, code, host::setup_end),
        Entry::Underrun(ep) => answered(k, line, code, move |k| host::underrun(k, ep)),
        Entry::Overrun(ep) => answered(k, line, code, move |k| host::overrun(k, ep)),
    }
}

// A call that is lent the list, and its line: it found the list as `lent` and left it as `left`.
// (Out of line, each call in a function of its own, as `answered`, `write`, `read`, `arrival` and `collect` are: built into `act`, the answers of all entries
// were filled with zeros whichever was carried out, bench/RESULTS.md. `move`: what a closure holds is then the number, and not a place of it.)
#[inline(never)]
fn called<A: Shown, F: FnOnce(Record, &mut [u16]) -> Called<A>>(
    k: Record,
    list: &mut [u16],
    line: &mut [u8],
    code: u8,
    call: F,
) -> Acted
    requires { (100 ≤ length line.old) × F.IsAlwaysCallable call }
    ensures { (o : Called A) × (lent : _) × (left : _) × F.post call k lent o left × (lent.now ≡ list.old) × (left.now ≡ list.new) × Gives line.old line.new result code o.«record» o.stores (A.number o.answer) (A.values o.answer) }
{
    let o = call(k, list);
    trace_answers::called(line, code, o)
}

// One that is lent nothing.
#[inline(never)]
fn answered<A: Shown, F: FnOnce(Record) -> Answered<A>>(
    k: Record,
    line: &mut [u8],
    code: u8,
    call: F,
) -> Acted
    requires { (100 ≤ length line.old) × F.IsAlwaysCallable call }
    ensures { (o : Answered A) × F.post call k o × Gives line.old line.new result code o.«record» 0 (A.number o.answer) (A.values o.answer) }
{
    let o = call(k);
    trace_answers::answered(line, code, o)
}

#[inline(never)]
fn write(
    k: Record,
    ep: u8,
    bytes: &[u8],
    fifo: &mut [u8],
    list: &mut [u16],
    line: &mut [u8],
    code: u8,
) -> Acted
    requires { (length bytes.now ≤ 65536) × (100 ≤ length line.old) }
    ensures { Acts line.old line.new result fifo.new list.new code (did (state k fifo.old list.old) (calls.write ep bytes.now fifo.old list.old)) }
{
    let o = usb_device_write::write(k, ep, bytes, fifo, list);
    trace_answers::written(line, code, o)
}

// A read is lent the first bytes of a buffer of its own.
#[inline(never)]
fn read(
    k: Record,
    ep: u8,
    n: u16,
    fifo: &[u8],
    list: &mut [u16],
    line: &mut [u8],
    code: u8,
) -> Acted
    requires { (n ≤ 512) × (length fifo.now ≤ 2000) × (8192 ≤ length line.old) }
    ensures { Acts line.old line.new result fifo.now list.new code (did (state k fifo.now list.old) (calls.read ep (replicate n 0) fifo.now list.old)) }
{
    let mut buf = zeros();
    fetch(k, ep, fifo, list, &mut buf[..n as usize], line, code)
}

// The longest buffer that an entry can ask a read for.
fn zeros() -> [u8; 512]
    ensures { result ≡ replicate 512 0 }
{
    [0; 512]
}

fn fetch(
    k: Record,
    ep: u8,
    fifo: &[u8],
    list: &mut [u16],
    buf: &mut [u8],
    line: &mut [u8],
    code: u8,
) -> Acted
    requires { (length buf.old ≤ 512) × (length fifo.now ≤ 2000) × (8192 ≤ length line.old) }
    ensures { Acts line.old line.new result fifo.now list.new code (did (state k fifo.now list.old) (calls.read ep buf.old fifo.now list.old)) }
{
    let o = usb_device_read::read(k, ep, buf, fifo, list);
    trace_answers::fetched(line, code, o, buf)
}

// The list is not lent: it stays as it was, whatever stands in it.
#[inline(never)]
fn arrival(k: Record, ep: u8, bytes: &[u8], fifo: &mut [u8], line: &mut [u8], code: u8) -> Acted
    requires { 100 ≤ length line.old }
    ensures { (l : _) → Acts line.old line.new result fifo.new l code (did (state k fifo.old l) (calls.arrival ep bytes.now fifo.old)) }
{
    trace_answers::answered(line, code, host::arrival(k, ep, bytes, fifo))
}

#[inline(never)]
fn collect(k: Record, ep: u8, fifo: &[u8], line: &mut [u8], code: u8) -> Acted
    requires { (length fifo.now ≤ 2000) × (8192 ≤ length line.old) }
    ensures { (l : _) → Acts line.old line.new result fifo.now l code (did (state k fifo.now l) (calls.collection ep fifo.now)) }
{
    trace_answers::collected(line, code, host::collection(k, ep, fifo), fifo)
}

// By the names of docs/CALLS.md, as `bus_operation` has them.
fn bus(k: Record, b: BusEvent) -> Answered<Reply<()>>
    ensures { calls.answered result ≡ calls.outcome k (bus_operation b) }
{
    match b {
        BusEvent::Reset => host::bus_reset(k),
        BusEvent::Suspend => host::suspend(k),
        BusEvent::Resume => host::resume(k),
    }
}
