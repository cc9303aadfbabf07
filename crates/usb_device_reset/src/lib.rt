// The call `reset` of the source's usb_device_impl/mod.rs: every endpoint that is used is enabled again.

#![tactic(auto)]

ghost use Rattle.std.specs.Prelude.{◌≡◌, ◌+◌, ◌*◌, ◌≤◌, ◌<◌, length};
ghost use Rattle.store_rules.specs.Stores.{log};
ghost use Rattle.call_rules.specs.Reset.{tx_enabled, rx_enabled, used_enabled, enabled_below, reset_call};

use endpoints::EndpointData;
use record::{Called, Record, Reply};

// (The record is changed in its argument, and not in the result as in the other calls: so it takes some 70 instructions less.)
pub fn reset(mut k: Record, list: &mut [u16]) -> Called<Reply<()>>
    ensures { record { call = result; list = list.new } ≡ reset_call k list.old }
{
    if let Err(x) = usb_device_impl::admit(list.len(), &k, false) {
        return Called {
            record: k,
            stores: 0,
            answer: Err(x),
        };
    }
    let a = stores::write_power(&mut k.regs.words, list, 0);
    let count = record_ops::endpoints(k.regs.board);
    let n = enable_below(&mut k.regs.words, list, a, &k.endpoints, count);
    k.control_state = usb_device_impl::idle(k.control_state);
    Called {
        record: k,
        stores: n,
        answer: Ok(()),
    }
}

// Every endpoint below count, lowest first.
// (By number: it is the endpoint's, and goes on with its entry.)
fn enable_below(
    w: &mut [u16; 46],
    list: &mut [u16],
    n: usize,
    endpoints: &[EndpointData; 6],
    count: u8,
) -> usize
    requires { (count ≤ 6) × (n * 3 + 252 ≤ length list.old) }
    ensures { log w.new list.new result ≡ enabled_below endpoints.now count (log w.old list.old n) }
{
    let mut m = n;
    for index in 0..count {
        m = enable_used(w, list, m, index, endpoints[index as usize]);
    }
    m
}

fn enable_used(w: &mut [u16; 46], list: &mut [u16], n: usize, index: u8, ep: EndpointData) -> usize
    requires { (index < 16) × (n * 3 + 42 ≤ length list.old) }
    ensures { (log w.new list.new result ≡ used_enabled index ep (log w.old list.old n)) × (result ≤ n + 14) }
{
    let a = enable_tx(w, list, n, index, ep);
    enable_rx(w, list, a, index, ep)
}

// (Twins, an `if` and a call each: by direction it would be matched twice, for the mark and for the source's name.)
fn enable_tx(w: &mut [u16; 46], list: &mut [u16], n: usize, index: u8, ep: EndpointData) -> usize
    requires { (index < 16) × (n * 3 + 21 ≤ length list.old) }
    ensures { (log w.new list.new result ≡ tx_enabled index ep (log w.old list.old n)) × (result ≤ n + 7) }
{
    if ep.used_tx {
        return enabling::ep_tx_enable(w, list, n, index, ep.ep_conf);
    }
    n
}

fn enable_rx(w: &mut [u16; 46], list: &mut [u16], n: usize, index: u8, ep: EndpointData) -> usize
    requires { (index < 16) × (n * 3 + 21 ≤ length list.old) }
    ensures { (log w.new list.new result ≡ rx_enabled index ep (log w.old list.old n)) × (result ≤ n + 7) }
{
    if ep.used_rx {
        return enabling::ep_rx_enable(w, list, n, index, ep.ep_conf);
    }
    n
}
