// What the source keeps in its common_impl.rs, first part: the bus and stalling.
// Each function is lent the register file, takes how many stores stand in the lent list, and gives back how many stand there now.

#![tactic(auto)]

ghost use Rattle.std.specs.Prelude.{◌≡◌, not, ◌+◌, ◌*◌, ◌≤◌, length};
ghost use Rattle.board.specs.declared.Direction.TheVariants.{Out, In};
ghost use Rattle.store_rules.specs.Stores.{log, write_index};
ghost use Rattle.common_rules.specs.Common.{bus_init, selected, stall_csr0l, write_csrl, ep_tx_stall, ep_rx_stall, has_send_stall, is_stalled};

use board::Direction;
use common_rules::Stalled;
use csr::{Csr0l, Rxcsrl, Txcsrl};
use stores::Control;

pub fn bus_init(w: &mut [u16; 46], list: &mut [u16], n: usize) -> usize
    requires { n * 3 + 9 ≤ length list.old }
    ensures { (log w.new list.new result ≡ bus_init (log w.old list.old n)) × (result ≡ n + 3) }
{
    let a = stores::write_intrusbe(w, list, n);
    let b = stores::write_intre(w, list, a, Direction::Out, 0xFE);
    stores::write_intre(w, list, b, Direction::In, 0xFF)
}

// A `write` of RXCSRL or TXCSRL, which starts from all zeros: SendStall and ClrDataTog alone.
// (An arm for each register, here and in `send_stall`: each names its own register's bits, which `Control` does not have in common.)
pub fn write_csrl(
    w: &mut [u16; 46],
    list: &mut [u16],
    n: usize,
    d: Direction,
    stall: bool,
    toggle: bool,
) -> usize
    requires { n * 3 + 3 ≤ length list.old }
    ensures { (log w.new list.new result ≡ write_csrl d stall toggle (log w.old list.old n)) × (result ≡ n + 1) }
{
    match d {
        Direction::Out => {
            let v = Rxcsrl {
                send_stall: stall,
                clr_data_tog: toggle,
                ..Rxcsrl::zeros()
            };
            stores::write(w, list, n, v)
        }
        Direction::In => {
            let v = Txcsrl {
                send_stall: stall,
                clr_data_tog: toggle,
                ..Txcsrl::zeros()
            };
            stores::write(w, list, n, v)
        }
    }
}

// The source's names, `ep_tx_stall` and `ep_rx_stall`, over one function; so `ep_tx_is_stalled` and `ep_rx_is_stalled` below.
pub fn ep_tx_stall(w: &mut [u16; 46], list: &mut [u16], n: usize, index: u8, stalled: bool) -> usize
    requires { n * 3 + 6 ≤ length list.old }
    ensures { (log w.new list.new result ≡ ep_tx_stall index stalled (log w.old list.old n)) × (result ≡ n + 2) }
{
    stall(w, list, n, Direction::In, index, stalled, false)
}

fn stall(
    w: &mut [u16; 46],
    list: &mut [u16],
    n: usize,
    d: Direction,
    index: u8,
    stalled: bool,
    serviced: bool,
) -> usize
    requires { n * 3 + 6 ≤ length list.old }
    ensures { (log w.new list.new result ≡ selected index (stall_csr0l stalled serviced) (write_csrl d stalled (not stalled)) (log w.old list.old n)) × (result ≡ n + 2) }
{
    let a = stores::write_index(w, list, n, index);
    if index == 0 {
        return stall_csr0l(w, list, a, stalled, serviced);
    }
    write_csrl(w, list, a, d, stalled, !stalled)
}

// The source's `write` of CSR0L: from zeros, with the two bits that its closures may set.
fn stall_csr0l(w: &mut [u16; 46], list: &mut [u16], n: usize, stall: bool, serviced: bool) -> usize
    requires { n * 3 + 3 ≤ length list.old }
    ensures { (log w.new list.new result ≡ stall_csr0l stall serviced (log w.old list.old n)) × (result ≡ n + 1) }
{
    let v = Csr0l {
        send_stall: stall,
        serviced_rx_pkt_rdy: serviced,
        ..Csr0l::zeros()
    };
    stores::write(w, list, n, v)
}

pub fn ep_rx_stall(w: &mut [u16; 46], list: &mut [u16], n: usize, index: u8, stalled: bool) -> usize
    requires { n * 3 + 6 ≤ length list.old }
    ensures { (log w.new list.new result ≡ ep_rx_stall index stalled (log w.old list.old n)) × (result ≡ n + 2) }
{
    stall(w, list, n, Direction::Out, index, stalled, stalled)
}

pub fn ep_rx_is_stalled(w: &mut [u16; 46], list: &mut [u16], n: usize, index: u8) -> Stalled
    requires { n * 3 + 3 ≤ length list.old }
    ensures { (log w.new list.new result.n ≡ write_index index (log w.old list.old n)) × (result.stalled ≡ is_stalled Out index (log w.old list.old n)) × (result.n ≡ n + 1) }
{
    is_stalled(w, list, n, Direction::Out, index)
}

fn is_stalled(w: &mut [u16; 46], list: &mut [u16], n: usize, d: Direction, index: u8) -> Stalled
    requires { n * 3 + 3 ≤ length list.old }
    ensures { (log w.new list.new result.n ≡ write_index index (log w.old list.old n)) × (result.stalled ≡ is_stalled d index (log w.old list.old n)) × (result.n ≡ n + 1) }
{
    let a = stores::write_index(w, list, n, index);
    if index == 0 {
        let v = Csr0l::read(w);
        return Stalled {
            n: a,
            stalled: v.send_stall,
        };
    }
    Stalled {
        n: a,
        stalled: send_stall(w, d),
    }
}

fn send_stall(w: &[u16; 46], d: Direction) -> bool
    ensures { result ≡ has_send_stall d w.now }
{
    match d {
        Direction::Out => {
            let v = Rxcsrl::read(w);
            v.send_stall
        }
        Direction::In => {
            let v = Txcsrl::read(w);
            v.send_stall
        }
    }
}

pub fn ep_tx_is_stalled(w: &mut [u16; 46], list: &mut [u16], n: usize, index: u8) -> Stalled
    requires { n * 3 + 3 ≤ length list.old }
    ensures { (log w.new list.new result.n ≡ write_index index (log w.old list.old n)) × (result.stalled ≡ is_stalled In index (log w.old list.old n)) × (result.n ≡ n + 1) }
{
    is_stalled(w, list, n, Direction::In, index)
}
