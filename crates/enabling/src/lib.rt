// What the source keeps in its common_impl.rs, second part: an endpoint is enabled, in one direction.
// Each function is lent the register file, takes how many stores stand in the lent list, and gives back how many stand there now.

#![tactic(auto)]

ghost use Rattle.std.specs.Prelude.{◌≡◌, ◌+◌, ◌*◌, ◌≤◌, ◌<◌, length};
ghost use Rattle.store_rules.specs.Stores.{log};
ghost use Rattle.common_rules.specs.Enable.{flushed_zero, enabled_zero, iso_written, waits, flush, flushed, sized, settled, enabled_other, enabled, ep_tx_enable, ep_rx_enable};

use board::Direction;
use csr::{Csr0l, Csr0lSet, Rxcsrl, RxcsrlSet, Txcsrl, TxcsrlSet};
use endpoints::{EndpointConfig, EndpointType};
use stores::Control;

// The source's names, `ep_tx_enable` and `ep_rx_enable`, over one function.
pub fn ep_tx_enable(
    w: &mut [u16; 46],
    list: &mut [u16],
    n: usize,
    index: u8,
    config: EndpointConfig,
) -> usize
    requires { (index < 16) × (n * 3 + 21 ≤ length list.old) }
    ensures { (log w.new list.new result ≡ ep_tx_enable index config (log w.old list.old n)) × (result ≤ n + 7) }
{
    enable(
        w,
        list,
        n,
        Direction::In,
        index,
        config.ep_type == EndpointType::Isochronous,
        config.tx_max_packet_size,
    )
}

fn enable(
    w: &mut [u16; 46],
    list: &mut [u16],
    n: usize,
    d: Direction,
    index: u8,
    iso: bool,
    size: u16,
) -> usize
    requires { (index < 16) × (n * 3 + 21 ≤ length list.old) }
    ensures { (log w.new list.new result ≡ enabled d index iso size (log w.old list.old n)) × (result ≤ n + 7) }
{
    let a = stores::write_index(w, list, n, index);
    if index == 0 {
        return enable_zero(w, list, a);
    }
    enable_other(w, list, a, d, index, iso, size)
}

// Endpoint 0 has one interrupt enable bit for both directions.
fn enable_zero(w: &mut [u16; 46], list: &mut [u16], n: usize) -> usize
    requires { n * 3 + 9 ≤ length list.old }
    ensures { (log w.new list.new result ≡ enabled_zero (log w.old list.old n)) × (result ≡ n + 3) }
{
    let a = stores::modify_intre(w, list, n, Direction::In, 0);
    let b = stores::modify::<Csr0l>(w, list, a, Csr0lSet::ServicedBoth);
    flush_zero(w, list, b)
}

fn flush_zero(w: &mut [u16; 46], list: &mut [u16], n: usize) -> usize
    requires { n * 3 + 3 ≤ length list.old }
    ensures { (log w.new list.new result ≡ flushed_zero (log w.old list.old n)) × (result ≡ n + 1) }
{
    stores::flush_csr0h(w, list, n)
}

fn enable_other(
    w: &mut [u16; 46],
    list: &mut [u16],
    n: usize,
    d: Direction,
    index: u8,
    iso: bool,
    size: u16,
) -> usize
    requires { (index < 16) × (n * 3 + 18 ≤ length list.old) }
    ensures { (log w.new list.new result ≡ enabled_other d index iso size (log w.old list.old n)) × (result ≤ n + 6) }
{
    let a = set_up(w, list, n, d, index, size);
    let b = write_iso_if(w, list, a, d, iso);
    flush_if_waiting(w, list, b, d)
}

fn set_up(
    w: &mut [u16; 46],
    list: &mut [u16],
    n: usize,
    d: Direction,
    index: u8,
    size: u16,
) -> usize
    requires { (index < 16) × (n * 3 + 9 ≤ length list.old) }
    ensures { (log w.new list.new result ≡ settled d index size (log w.old list.old n)) × (result ≡ n + 3) }
{
    let a = stores::modify_intre(w, list, n, d, index);
    let b = write_size(w, list, a, d, size);
    common_impl::write_csrl(w, list, b, d, false, true)
}

fn write_size(w: &mut [u16; 46], list: &mut [u16], n: usize, d: Direction, size: u16) -> usize
    requires { n * 3 + 3 ≤ length list.old }
    ensures { (log w.new list.new result ≡ sized d size (log w.old list.old n)) × (result ≡ n + 1) }
{
    stores::write_maxp(w, list, n, d, size)
}

// (A function of its own, as is `flush_if_waiting`: each is a step of the definition, whose contract stands with it.)
fn write_iso_if(w: &mut [u16; 46], list: &mut [u16], n: usize, d: Direction, iso: bool) -> usize
    requires { n * 3 + 3 ≤ length list.old }
    ensures { (log w.new list.new result ≡ iso_written d iso (log w.old list.old n)) × (result ≤ n + 1) }
{
    if iso {
        return stores::write_iso(w, list, n, d);
    }
    n
}

fn flush_if_waiting(w: &mut [u16; 46], list: &mut [u16], n: usize, d: Direction) -> usize
    requires { n * 3 + 6 ≤ length list.old }
    ensures { (log w.new list.new result ≡ flushed d (log w.old list.old n)) × (result ≤ n + 2) }
{
    if packet_waits(w, d) {
        let a = flush_fifo(w, list, n, d);
        return flush_fifo(w, list, a, d);
    }
    n
}

// (An arm for each register, here and in `flush_fifo`: each names its own register's bits, which `Control` does not have in common.)
fn packet_waits(w: &[u16; 46], d: Direction) -> bool
    ensures { result ≡ waits d w.now }
{
    match d {
        Direction::Out => {
            let v = Rxcsrl::read(w);
            v.rx_pkt_rdy
        }
        Direction::In => {
            let v = Txcsrl::read(w);
            v.fifo_not_empty
        }
    }
}

fn flush_fifo(w: &mut [u16; 46], list: &mut [u16], n: usize, d: Direction) -> usize
    requires { n * 3 + 3 ≤ length list.old }
    ensures { (log w.new list.new result ≡ flush d (log w.old list.old n)) × (result ≡ n + 1) }
{
    match d {
        Direction::Out => stores::modify::<Rxcsrl>(w, list, n, RxcsrlSet::FlushFifo),
        Direction::In => stores::modify::<Txcsrl>(w, list, n, TxcsrlSet::FlushFifo),
    }
}

pub fn ep_rx_enable(
    w: &mut [u16; 46],
    list: &mut [u16],
    n: usize,
    index: u8,
    config: EndpointConfig,
) -> usize
    requires { (index < 16) × (n * 3 + 21 ≤ length list.old) }
    ensures { (log w.new list.new result ≡ ep_rx_enable index config (log w.old list.old n)) × (result ≤ n + 7) }
{
    enable(
        w,
        list,
        n,
        Direction::Out,
        index,
        config.ep_type == EndpointType::Isochronous,
        config.rx_max_packet_size,
    )
}
