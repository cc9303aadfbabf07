// What `poll` of the source does for endpoint 0: the packet that waits there, by the control state, and the Accepted step.
// A function that may list a store gives back how many stand in the list, with the source's `setup` where it may be set.

#![tactic(auto, using(laws::proofs::Words::raised_lt6), unfolding(round_rules::specs::Zero::sent_by, round_rules::specs::Zero::setup_taken, round_rules::specs::Zero::restarted, round_rules::specs::Zero::cut_short, round_rules::specs::Zero::received_by, round_rules::specs::Zero::zero_served, round_rules::specs::Zero::endpoint_zero, round_rules::specs::Zero::put_back, round_rules::specs::Zero::accepted_by, round_rules::specs::Zero::accept_step))]

ghost use Rattle.std.specs.Prelude.{◌≡◌, ◌+◌, ◌*◌, ◌≤◌, ◌<◌, length};
ghost use Rattle.store_rules.specs.Stores.{log};
ghost use Rattle.record.specs.declared.Flags.{Flags};
ghost use Rattle.round_rules.specs.Zero.{round, sent_by, setup_taken, restarted, cut_short, received_by, zero_served, endpoint_zero, put_back, after_accept, accept_step};

use board::Direction;
use control_state::{ControlState, ControlStateEnum};
use csr::{Csr0l, Csr0lSet};
use record::Flags;
use stores::Control;

// (Each contract asks that the receive flags are below 64: a record may come with any, which reply 16 refuses, so the field is no six-bit type.)
pub fn endpoint_zero(
    w: &mut [u16; 46],
    list: &mut [u16],
    n: usize,
    c: &mut ControlState,
    f: &mut Flags,
) -> (usize, bool)
    requires { (n * 3 + 6 ≤ length list.old) × (f.old.ep_rx < 64) }
    ensures { (round (log w.new list.new result.0) c.new f.new result.1 ≡ endpoint_zero (log w.old list.old n) c.old f.old) × (result.0 ≤ n + 2) × (f.new.ep_rx < 64) }
{
    if f.ep0 {
        let m = stores::write_index(w, list, n, 0);
        return serve_zero(w, list, m, c, f);
    }
    (n, false)
}

fn serve_zero(
    w: &mut [u16; 46],
    list: &mut [u16],
    n: usize,
    c: &mut ControlState,
    f: &mut Flags,
) -> (usize, bool)
    requires { (n * 3 + 3 ≤ length list.old) × (f.old.ep_rx < 64) }
    ensures { (round (log w.new list.new result.0) c.new f.new result.1 ≡ zero_served (log w.old list.old n) c.old f.old) × (result.0 ≤ n + 1) × (f.new.ep_rx < 64) }
{
    let v = Csr0l::read(w);
    f.ep0 = false;
    match (v.rx_pkt_rdy, v.tx_pkt_rdy) {
        (true, _) => receive(w, list, n, c, f),
        (false, false) => {
            sent(c.get_state(), f);
            (n, false)
        }
        (false, true) => (n, false),
    }
}

// A packet waits at endpoint 0.
fn receive(
    w: &mut [u16; 46],
    list: &mut [u16],
    n: usize,
    c: &mut ControlState,
    f: &mut Flags,
) -> (usize, bool)
    requires { (n * 3 + 3 ≤ length list.old) × (f.old.ep_rx < 64) }
    ensures { (round (log w.new list.new result.0) c.new f.new result.1 ≡ received_by c.old.state (log w.old list.old n) c.old f.old) × (result.0 ≤ n + 1) × (f.new.ep_rx < 64) }
{
    match c.get_state() {
        ControlStateEnum::Idle => take_setup(w, list, n, c),
        ControlStateEnum::DataOut => {
            f.ep_rx = laws::raise(f.ep_rx, 0);
            (n, false)
        }
        ControlStateEnum::DataIn => cut_short(w, list, n, c),
        _ => (n, false),
    }
}

fn take_setup(w: &mut [u16; 46], list: &mut [u16], n: usize, c: &mut ControlState) -> (usize, bool)
    requires { n * 3 + 3 ≤ length list.old }
    ensures { ((f : Flags) → round (log w.new list.new result.0) c.new f result.1 ≡ setup_taken (log w.old list.old n) c.old f) × (result.0 ≤ n + 1) }
{
    if regs::waiting_len(w, 0, Direction::Out) == 8 {
        let m = stores::modify::<Csr0l>(w, list, n, Csr0lSet::ServicedSetupEnd);
        *c = c.set_state(ControlStateEnum::Setup);
        return (m, true);
    }
    (n, false)
}

fn cut_short(w: &mut [u16; 46], list: &mut [u16], n: usize, c: &mut ControlState) -> (usize, bool)
    requires { n * 3 + 3 ≤ length list.old }
    ensures { ((f : Flags) → round (log w.new list.new result.0) c.new f result.1 ≡ cut_short (log w.old list.old n) c.old f) × (result.0 ≤ n + 1) }
{
    let v = Csr0l::read(w);
    if v.setup_end {
        return restart(w, list, n, c);
    }
    (n, false)
}

fn restart(w: &mut [u16; 46], list: &mut [u16], n: usize, c: &mut ControlState) -> (usize, bool)
    requires { n * 3 + 3 ≤ length list.old }
    ensures { ((f : Flags) → round (log w.new list.new result.0) c.new f result.1 ≡ restarted (log w.old list.old n) c.old f) × (result.0 ≤ n + 1) }
{
    let count = regs::waiting_len(w, 0, Direction::Out);
    let m = stores::modify::<Csr0l>(w, list, n, Csr0lSet::ServicedSetupEnd);
    *c = c.set_state(ControlStateEnum::Idle).reset_tx_len();
    if count == 8 {
        *c = c.set_state(ControlStateEnum::Setup);
        return (m, true);
    }
    (m, false)
}

// Nothing waits at endpoint 0 and nothing is on its way: in DataIn a packet has gone.
fn sent(s: ControlStateEnum, f: &mut Flags)
    ensures { (f.new ≡ sent_by s f.old) × (f.new.ep_rx ≡ f.old.ep_rx) }
{
    if let ControlStateEnum::DataIn = s {
        f.ep_tx = laws::raise(f.ep_tx, 0);
    }
}

pub fn accept(c: &mut ControlState, f: &mut Flags)
    requires { f.old.ep_rx < 64 }
    ensures { (after_accept c.new f.new ≡ accept_step c.old f.old) × (f.new.ep_rx < 64) }
{
    if let ControlStateEnum::Accepted = c.get_state() {
        put_back(f);
        f.ep_tx = laws::raise(f.ep_tx, 0);
        *c = c.set_state(ControlStateEnum::Idle);
    }
}

fn put_back(f: &mut Flags)
    requires { f.old.ep_rx < 64 }
    ensures { (f.new ≡ put_back f.old) × (f.new.ep_rx < 64) }
{
    if laws::has_bit(f.ep_rx, 0) {
        f.ep0 = true;
        f.ep_rx = poll_walk::without(f.ep_rx, 0);
    }
}
