// The call `write` of the source's usb_device_impl: a packet into an endpoint's transmit area.
// What is refused is tested before anything changes, in document 01's order (the source selects the endpoint first, and panics where it
// can't go on); after that the steps are the source's, in its order: endpoint 0's by the control state, then those of the others.

#![tactic(auto)]

ghost use Rattle.std.specs.Prelude.{◌≡◌, ◌<◌, ◌+◌, ◌*◌, ◌≤◌, length};
ghost use Rattle.transfer_rules.specs.WriteTests.{too_long, untaken_in, not_writable, own_tests_at, tests_in};
ghost use Rattle.store_rules.specs.Stores.{log};
ghost use Rattle.transfer_rules.specs.Peek.{after};
ghost use Rattle.transfer_rules.specs.WriteZero.{tx_size_in, sent_data_in, sent_zero};
ghost use Rattle.board.specs.declared.Direction.TheVariants.{In};
ghost use Rattle.laws.specs.Lists.{pasted};
ghost use Rattle.record.specs.Record.{area_in, need_in};
ghost use Rattle.record.specs.declared.Flags.{Flags};
ghost use Rattle.transfer_rules.specs.Write.{write_left, loaded, sent, write_in, write_call};

use board::{Board, Direction};
use control_state::{ControlState, ControlStateEnum};
use csr::{Csr0l, Csr0lSet, Txcsrl, TxcsrlSet};
use endpoints::EndpointData;
use record::{Called, Flags, Ran, Record, Refusal, Reply};
use transfer_rules::Verdict;

#[tactic(auto, unfolding(transfer_rules::specs::Write::write_call, transfer_rules::specs::WriteZero::tx_size))]
pub fn write(
    k: Record,
    ep: u8,
    bytes: &[u8],
    fifo: &mut [u8],
    list: &mut [u16],
) -> Called<Reply<usize>>
    ensures { record { result = result; fifo = fifo.new; list = list.new } ≡ write_call k ep bytes.now fifo.old list.old }
{
    let size = tx_size(&k.endpoints);
    let mut o = Called {
        record: k,
        stores: 0,
        answer: Ok(0),
    };
    let ran = write_by(
        k.regs.board,
        &mut o.record.regs.words,
        list,
        &mut o.record.control_state,
        &mut o.record.irq,
        size,
        ep,
        bytes,
        fifo,
    );
    o.stores = ran.n;
    o.answer = ran.answer;
    o
}

// Endpoint 0's recorded transmit size.
#[tactic(auto, unfolding(transfer_rules::specs::WriteZero::tx_size_in))]
fn tx_size(es: &[EndpointData; 6]) -> usize
    ensures { result ≡ tx_size_in es.now }
{
    usize::from(es[0].ep_conf.tx_max_packet_size)
}

// The whole call, but for the record: its registers, control state and flags are lent, and of its endpoints the call asks endpoint 0's transmit size alone.
// (No one function with `read_by`: what is lent and done differs, and the other two arms are a line each.)
#[tactic(auto, unfolding(transfer_rules::specs::Write::write_in, transfer_rules::specs::Write::write_done, transfer_rules::specs::Peek::blocked))]
fn write_by(
    b: Board,
    w: &mut [u16; 46],
    list: &mut [u16],
    c: &mut ControlState,
    f: &mut Flags,
    size: usize,
    ep: u8,
    bytes: &[u8],
    fifo: &mut [u8],
) -> Ran<Reply<usize>>
    ensures { write_left result.answer fifo.new (after c.new f.new (log w.new list.new result.n)) ≡ write_in b w.old c.old f.old size ep bytes.now fifo.old list.old }
{
    match refusal(b, w, *c, *f, ep, bytes.len(), fifo.len(), list.len()) {
        Verdict::Clear => Ran {
            answer: Ok(bytes.len()),
            n: send(b, w, list, c, f, size, ep, bytes, fifo),
        },
        Verdict::Blocked => peek::block(w, list, ep),
        Verdict::Refused(x) => record_ops::refused(x),
    }
}

// Every test, before anything changes: 15, 16, 8, then 6, 9, 11.
// (The read's twin but for its own tests: a function of both, in between, cost each 6 to 12 instructions. docs/DECISIONS.md.)
#[tactic(auto, unfolding(transfer_rules::specs::WriteTests::tests_in))]
fn refusal(
    b: Board,
    w: &[u16; 46],
    c: ControlState,
    f: Flags,
    ep: u8,
    len: usize,
    fifo: usize,
    list: usize,
) -> Verdict
    ensures { result ≡ tests_in b w.now c f ep len fifo list }
{
    match record_ops::admit(
        peek::is_short(b, fifo, list),
        b,
        w,
        f,
        record_ops::endpoints(b) <= ep,
    ) {
        Ok(()) => own_tests_at(b, w, c, ep, len),
        Err(x) => Verdict::Refused(x),
    }
}

// Write's own tests, each in its turn: 6, 9, 11.
#[tactic(auto, unfolding(transfer_rules::specs::WriteTests::own_tests_at))]
fn own_tests_at(b: Board, w: &[u16; 46], c: ControlState, ep: u8, len: usize) -> Verdict
    ensures { result ≡ own_tests_at b w.now c ep len }
{
    if regs::waits(w, ep, Direction::In) {
        return Verdict::Blocked;
    }
    if too_long(b, ep, len) {
        return Verdict::Refused(Refusal::TooLong);
    }
    if not_writable(c, ep, len) {
        return Verdict::Refused(Refusal::NotWritable);
    }
    Verdict::Clear
}

#[tactic(auto, unfolding(transfer_rules::specs::WriteTests::too_long))]
fn too_long(b: Board, ep: u8, len: usize) -> bool
    ensures { result ≡ too_long b ep len }
{
    record_ops::area(b, ep, Direction::In).size < len
}

#[tactic(auto, unfolding(transfer_rules::specs::WriteTests::not_writable))]
fn not_writable(c: ControlState, ep: u8, len: usize) -> bool
    ensures { result ≡ not_writable c ep len }
{
    (ep == 0) & untaken_in(c.state, len)
}

// The source panics in these states.
fn untaken_in(s: ControlStateEnum, len: usize) -> bool
    ensures { result ≡ untaken_in s len }
{
    match s {
        ControlStateEnum::Idle | ControlStateEnum::NodataPhase => len != 0,
        ControlStateEnum::DataIn => false,
        ControlStateEnum::Setup | ControlStateEnum::DataOut | ControlStateEnum::Accepted => true,
    }
}

#[tactic(auto, unfolding(transfer_rules::specs::Write::sent, transfer_rules::specs::Write::sent_other))]
fn send(
    b: Board,
    w: &mut [u16; 46],
    list: &mut [u16],
    c: &mut ControlState,
    f: &mut Flags,
    size: usize,
    ep: u8,
    bytes: &[u8],
    fifo: &mut [u8],
) -> usize
    requires { (length bytes.now ≤ (area_in b ep In).size) × (need_in b ≤ length fifo.old) × (384 ≤ length list.old) }
    ensures { (after c.new f.new (log w.new list.new result) ≡ sent ep (length bytes.now) size c.old f.old (loaded ep (length bytes.now) (log w.old list.old 0))) × (fifo.new ≡ pasted fifo.old (area_in b ep In).start bytes.now) }
{
    let n = load(b, w, list, ep, bytes, fifo);
    if ep == 0 {
        return send_zero(w, list, n, c, f, bytes.len(), size);
    }
    // at endpoints 1 to 5 the packet is ready at once
    stores::modify::<Txcsrl>(w, list, n, TxcsrlSet::TxPktRdy)
}

// The endpoint is selected, and the packet's bytes go into its area.
#[tactic(auto, unfolding(transfer_rules::specs::Write::loaded))]
fn load(
    b: Board,
    w: &mut [u16; 46],
    list: &mut [u16],
    ep: u8,
    bytes: &[u8],
    fifo: &mut [u8],
) -> usize
    requires { (length bytes.now ≤ (area_in b ep In).size) × (need_in b ≤ length fifo.old) × (384 ≤ length list.old) }
    ensures { (log w.new list.new result ≡ loaded ep (length bytes.now) (log w.old list.old 0)) × (fifo.new ≡ pasted fifo.old (area_in b ep In).start bytes.now) × (result ≤ 2) × (length bytes.now < 65536) }
{
    let n = stores::write_index(w, list, 0, ep);
    let area = record_ops::area(b, ep, Direction::In);
    fifo::put_bytes(fifo, area, bytes);
    stores::write_packet(w, list, n, bytes.len() as u16)
}

// Endpoint 0, by its state. Of the last three none comes here: they are refused before.
#[tactic(auto, unfolding(transfer_rules::specs::WriteZero::nodata_phase, transfer_rules::specs::WriteZero::accepted))]
fn send_zero(
    w: &mut [u16; 46],
    list: &mut [u16],
    n: usize,
    c: &mut ControlState,
    f: &mut Flags,
    len: usize,
    size: usize,
) -> usize
    requires { (len < 65536) × (n * 3 + 6 ≤ length list.old) }
    ensures { after c.new f.new (log w.new list.new result) ≡ sent_zero c.old.state len size c.old f.old (log w.old list.old n) }
{
    match c.state {
        // An empty packet ends a transfer that has no data; usb-device is told of it as of a packet that was collected.
        ControlStateEnum::NodataPhase => {
            *c = c.set_state(ControlStateEnum::Idle);
            f.ep_tx = laws::raise(f.ep_tx, 0);
            n
        }
        ControlStateEnum::DataIn => send_data_in(w, list, n, c, len, size),
        // An empty packet after received data.
        ControlStateEnum::Idle => {
            *c = c.set_state(ControlStateEnum::Accepted);
            n
        }
        _ => n,
    }
}

// The packet is ready: was it the last?
// (`len` and `size` are two numbers that meet in one test.)
#[tactic(auto, unfolding(transfer_rules::specs::WriteZero::sent_data_in, transfer_rules::specs::WriteZero::data_in, transfer_rules::specs::Peek::ended))]
fn send_data_in(
    w: &mut [u16; 46],
    list: &mut [u16],
    n: usize,
    c: &mut ControlState,
    len: usize,
    size: usize,
) -> usize
    requires { (len < 65536) × (n * 3 + 6 ≤ length list.old) }
    ensures { (f : Flags) → after c.new f (log w.new list.new result) ≡ sent_data_in len size c.old f (log w.old list.old n) }
{
    let m = stores::modify::<Csr0l>(w, list, n, Csr0lSet::TxPktRdy);
    *c = c.decrease_tx_len(len as u32);
    if c.tx_len == 0 {
        *c = c.set_state(ControlStateEnum::Idle);
        return peek::end(w, list, m);
    }
    if len < size {
        *c = c.set_state(ControlStateEnum::Idle).reset_tx_len();
        return peek::end(w, list, m);
    }
    m
}
