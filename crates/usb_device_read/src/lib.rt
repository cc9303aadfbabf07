// The call `read` of the source's usb_device_impl: the packet that waits in an endpoint's receive area, into the caller's buffer.
// What is refused is tested before anything changes, in document 01's order and then document 02's (the source selects the endpoint first,
// panics where it can't go on, and cuts a packet that the buffer has no room for); after that the steps are the source's, in its order:
// endpoint 0's by the control state, then those of the others.

#![tactic(auto)]

ghost use Rattle.std.specs.Prelude.{◌≡◌, ◌+◌, ◌*◌, ◌≤◌, length, get_or};
ghost use Rattle.transfer_rules.specs.ReadTests.{unreadable_in, not_readable, not_setup_in, not_setup, overflows, own_tests_at, tests_in};
ghost use Rattle.store_rules.specs.Stores.{log};
ghost use Rattle.transfer_rules.specs.Peek.{after, rx_count};
ghost use Rattle.transfer_rules.specs.ReadZero.{w_length, way_in, after_setup, set_up, data_out, read_zero};
ghost use Rattle.board.specs.declared.Direction.TheVariants.{Out};
ghost use Rattle.record.specs.Record.{area_in, need_in};
ghost use Rattle.record.specs.declared.Flags.{Flags};
ghost use Rattle.transfer_rules.specs.Read.{read_left, copied, got, read_done, read_in, read_call};

use board::{Board, Direction};
use control_state::{ControlState, ControlStateEnum};
use csr::{Csr0l, Csr0lSet, Rxcsrl, RxcsrlSet};
use record::{Called, Flags, Ran, Record, Refusal, Reply};
use transfer_rules::Verdict;

#[tactic(auto, unfolding(transfer_rules::specs::Read::read_call, transfer_rules::specs::ReadZero::rx_size))]
pub fn read(
    k: Record,
    ep: u8,
    buf: &mut [u8],
    fifo: &[u8],
    list: &mut [u16],
) -> Called<Reply<usize>>
    ensures { record { result = result; list = list.new; buf = buf.new } ≡ read_call k ep buf.old fifo.now list.old }
{
    let size = usize::from(k.endpoints[0].ep_conf.rx_max_packet_size);
    let mut o = Called {
        record: k,
        stores: 0,
        answer: Ok(0),
    };
    let ran = read_by(
        k.regs.board,
        &mut o.record.regs.words,
        list,
        &mut o.record.control_state,
        k.irq,
        size,
        ep,
        buf,
        fifo,
    );
    o.stores = ran.n;
    o.answer = ran.answer;
    o
}

// By what the tests came to. `size` is endpoint 0's recorded receive size. No read changes the flags.
#[tactic(auto, unfolding(transfer_rules::specs::Read::read_in, transfer_rules::specs::Peek::blocked))]
fn read_by(
    b: Board,
    w: &mut [u16; 46],
    list: &mut [u16],
    c: &mut ControlState,
    f: Flags,
    size: usize,
    ep: u8,
    buf: &mut [u8],
    fifo: &[u8],
) -> Ran<Reply<usize>>
    ensures { read_left result.answer buf.new (after c.new f (log w.new list.new result.n)) ≡ read_in b w.old c.old f size ep buf.old fifo.now list.old }
{
    match refusal(b, w, *c, f, ep, buf.len(), fifo.len(), list.len()) {
        Verdict::Clear => take(b, w, list, ep, c, size, buf, fifo),
        Verdict::Blocked => peek::block(w, list, ep),
        Verdict::Refused(x) => record_ops::refused(x),
    }
}

// Every test, before anything changes: 15, 16, 8, then 6, 12, 13, 18.
// (The write's twin but for its own tests: a function of both, in between, cost each 6 to 12 instructions. docs/DECISIONS.md.)
#[tactic(auto, unfolding(transfer_rules::specs::ReadTests::tests_in))]
fn refusal(
    b: Board,
    w: &[u16; 46],
    c: ControlState,
    f: Flags,
    ep: u8,
    room: usize,
    fifo: usize,
    list: usize,
) -> Verdict
    ensures { result ≡ tests_in b w.now c f ep room fifo list }
{
    match record_ops::admit(
        peek::is_short(b, fifo, list),
        b,
        w,
        f,
        record_ops::endpoints(b) <= ep,
    ) {
        Ok(()) => own_tests_at(w, c, ep, room),
        Err(x) => Verdict::Refused(x),
    }
}

// Read's own tests, in their order: 6, 12, 13, 18.
#[tactic(auto, unfolding(transfer_rules::specs::ReadTests::own_tests_at))]
fn own_tests_at(w: &[u16; 46], c: ControlState, ep: u8, room: usize) -> Verdict
    ensures { result ≡ own_tests_at w.now c ep room }
{
    if !regs::waits(w, ep, Direction::Out) {
        return Verdict::Blocked;
    }
    if not_readable(c, ep) {
        return Verdict::Refused(Refusal::NotReadable);
    }
    if not_setup(w, c, ep, room) {
        return Verdict::Refused(Refusal::NotSetup);
    }
    if overflows(w, ep, room) {
        return Verdict::Refused(Refusal::BufferOverflow);
    }
    Verdict::Clear
}

#[tactic(auto, unfolding(transfer_rules::specs::ReadTests::not_readable))]
fn not_readable(c: ControlState, ep: u8) -> bool
    ensures { result ≡ not_readable c ep }
{
    (ep == 0) & unreadable_in(c.state)
}

// The source panics in these states.
fn unreadable_in(s: ControlStateEnum) -> bool
    ensures { result ≡ unreadable_in s }
{
    !matches!(s, ControlStateEnum::Setup | ControlStateEnum::DataOut)
}

#[tactic(auto, unfolding(transfer_rules::specs::ReadTests::not_setup))]
fn not_setup(w: &[u16; 46], c: ControlState, ep: u8, room: usize) -> bool
    ensures { result ≡ not_setup w.now c ep room }
{
    (ep == 0) & not_setup_in(c.state, regs::waiting_len(w, ep, Direction::Out), room)
}

// The source asserts a count of 8, and panics where the buffer has no byte 7.
fn not_setup_in(s: ControlStateEnum, n: u16, room: usize) -> bool
    ensures { result ≡ not_setup_in s n room }
{
    match s {
        ControlStateEnum::Setup => (n != 8) | (room < 8),
        _ => false,
    }
}

// Has the buffer no room for all of the packet? The source would cut it, and say its whole length.
#[tactic(auto, unfolding(transfer_rules::specs::ReadTests::overflows))]
fn overflows(w: &[u16; 46], ep: u8, room: usize) -> bool
    ensures { result ≡ overflows w.now ep room }
{
    room < usize::from(regs::waiting_len(w, ep, Direction::Out))
}

#[tactic(auto, unfolding(transfer_rules::specs::Read::read_done))]
fn take(
    b: Board,
    w: &mut [u16; 46],
    list: &mut [u16],
    ep: u8,
    c: &mut ControlState,
    size: usize,
    buf: &mut [u8],
    fifo: &[u8],
) -> Ran<Reply<usize>>
    requires { (rx_count ep w.old ≤ (area_in b ep Out).size) × (need_in b ≤ length fifo.now) × (384 ≤ length list.old) × (rx_count ep w.old ≤ length buf.old) }
    ensures { (f : Flags) → read_left result.answer buf.new (after c.new f (log w.new list.new result.n)) ≡ read_done b c.old f size ep buf.old fifo.now (log w.old list.old 0) }
{
    // as it was tested: the selection changes no count
    let count = usize::from(regs::waiting_len(w, ep, Direction::Out));
    let n = stores::write_index(w, list, 0, ep);
    fetch(b, ep, count, buf, fifo);
    Ran {
        answer: Ok(count),
        n: serve(w, list, n, ep, c, count, size, buf),
    }
}

// The packet that waits, all n bytes of it.
#[tactic(auto, unfolding(transfer_rules::specs::Read::copied))]
fn fetch(b: Board, ep: u8, n: usize, buf: &mut [u8], fifo: &[u8])
    requires { (n ≤ (area_in b ep Out).size) × (need_in b ≤ length fifo.now) × (n ≤ length buf.old) }
    ensures { buf.new ≡ copied b ep n buf.old fifo.now }
{
    let area = record_ops::area(b, ep, Direction::Out);
    fifo::take_bytes(fifo, area, n, buf);
}

// The packet is in the buffer, and is dropped: the endpoint is free for the next.
#[tactic(auto, unfolding(transfer_rules::specs::Read::got, transfer_rules::specs::Read::read_other))]
fn serve(
    w: &mut [u16; 46],
    list: &mut [u16],
    n: usize,
    ep: u8,
    c: &mut ControlState,
    count: usize,
    size: usize,
    buf: &[u8],
) -> usize
    requires { n * 3 + 6 ≤ length list.old }
    ensures { (f : Flags) → after c.new f (log w.new list.new result) ≡ got ep buf.now count size c.old f (log w.old list.old n) }
{
    if ep == 0 {
        return read_zero(w, list, n, c, count, size, buf);
    }
    stores::modify::<Rxcsrl>(w, list, n, RxcsrlSet::NoRxPktRdy)
}

// Endpoint 0, by its state. Of the last four none comes here: they are refused before.
#[tactic(auto, unfolding(transfer_rules::specs::ReadZero::read_zero))]
fn read_zero(
    w: &mut [u16; 46],
    list: &mut [u16],
    n: usize,
    c: &mut ControlState,
    count: usize,
    size: usize,
    buf: &[u8],
) -> usize
    requires { n * 3 + 6 ≤ length list.old }
    ensures { (f : Flags) → after c.new f (log w.new list.new result) ≡ read_zero buf.now count size c.old f (log w.old list.old n) }
{
    let m = stores::modify::<Csr0l>(w, list, n, Csr0lSet::ServicedRxPktRdy);
    match c.state {
        ControlStateEnum::Setup => set_up(w, list, m, c, buf),
        ControlStateEnum::DataOut => data_out(w, list, m, c, count, size),
        _ => m,
    }
}

#[tactic(auto, unfolding(transfer_rules::specs::ReadZero::set_up, transfer_rules::specs::Peek::ended))]
fn set_up(w: &mut [u16; 46], list: &mut [u16], n: usize, c: &mut ControlState, buf: &[u8]) -> usize
    requires { n * 3 + 3 ≤ length list.old }
    ensures { (f : Flags) → after c.new f (log w.new list.new result) ≡ set_up buf.now c.old f (log w.old list.old n) }
{
    let length = w_length(buf);
    if length == 0 {
        *c = c.set_state(ControlStateEnum::NodataPhase);
        return peek::end(w, list, n);
    }
    *c = after_setup(*c, way_in(buf), length);
    n
}

// w_length, low byte first.
#[tactic(auto, unfolding(transfer_rules::specs::ReadZero::w_length))]
fn w_length(buf: &[u8]) -> u16
    ensures { result ≡ w_length buf.now }
{
    u16::from_le_bytes([byte_at(buf, 6), byte_at(buf, 7)])
}

// The direction bit of the request's first byte.
#[tactic(auto, unfolding(transfer_rules::specs::ReadZero::way_in))]
fn way_in(buf: &[u8]) -> bool
    ensures { result ≡ way_in buf.now }
{
    128 <= byte_at(buf, 0)
}

// A byte of the buffer; 0 where it is too short, which it is not in Setup.
fn byte_at(buf: &[u8], i: usize) -> u8
    ensures { result ≡ get_or buf.now i 0 }
{
    buf.get(i).copied().unwrap_or(0)
}

// The control state after a Setup packet that announces data.
fn after_setup(c: ControlState, to_host: bool, n: u16) -> ControlState
    ensures { result ≡ after_setup c to_host n }
{
    if to_host {
        return c
            .set_state(ControlStateEnum::DataIn)
            .set_tx_len(u32::from(n));
    }
    c.set_state(ControlStateEnum::DataOut)
}

// Was the packet the last? It has `count` bytes, and `size` is endpoint 0's recorded receive size.
#[tactic(auto, unfolding(transfer_rules::specs::ReadZero::data_out, transfer_rules::specs::Peek::ended))]
fn data_out(
    w: &mut [u16; 46],
    list: &mut [u16],
    n: usize,
    c: &mut ControlState,
    count: usize,
    size: usize,
) -> usize
    requires { n * 3 + 3 ≤ length list.old }
    ensures { (f : Flags) → after c.new f (log w.new list.new result) ≡ data_out count size c.old f (log w.old list.old n) }
{
    if count < size {
        *c = c.set_state(ControlStateEnum::Idle);
        return peek::end(w, list, n);
    }
    n
}
