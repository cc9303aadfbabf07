// The control registers in code: crate `csr` says what each function comes to.
// `&`, `|` and `!` on bools are the rules of document 01 word for word.

#![tactic(auto)]

ghost use Rattle.std.specs.Prelude.{◌≡◌, cond, ◌≤◌};
ghost use Rattle.csr.specs.Control.{unless, tx_stored, rx_stored, zero_tx_stored, dropped};
ghost use Rattle.csr.specs.Sound.{side_sound};

use csr::{Csr0l, Rxcsrl, Side, Txcsrl};

// A length, dropped or not.
fn kept(drop: bool, n: u16) -> u16
    ensures { result ≡ unless drop n }
{
    if drop { 0 } else { n }
}

#[tactic(auto, unfolding(csr::specs::Control::tx_stored))]
pub fn tx_stored(w: Txcsrl, s: Side) -> Side
    ensures { result ≡ tx_stored w s }
{
    Side {
        ready: !w.flush_fifo & (s.ready | w.tx_pkt_rdy),
        missed: s.missed & w.under_run,
        stall: w.send_stall,
        stalled: s.stalled & w.sent_stall,
        len: kept(w.flush_fifo, s.len),
        ..s
    }
}

#[tactic(auto, unfolding(csr::specs::Control::rx_stored))]
pub fn rx_stored(w: Rxcsrl, s: Side) -> Side
    ensures { result ≡ rx_stored w s }
{
    let drop = w.flush_fifo | !w.rx_pkt_rdy;
    Side {
        ready: s.ready & !drop,
        missed: s.missed & w.over_run,
        stall: w.send_stall,
        stalled: s.stalled & w.sent_stall,
        len: kept(drop, s.len),
        ..s
    }
}

#[tactic(auto, unfolding(csr::specs::Control::zero_tx_stored))]
pub fn zero_tx_stored(v: Csr0l, s: Side) -> Side
    ensures { result ≡ zero_tx_stored v s }
{
    Side {
        ready: s.ready | v.tx_pkt_rdy,
        stall: v.send_stall,
        stalled: s.stalled & v.sent_stall,
        ..s
    }
}

// The packet and the ready bit of a side go, if they are to go.
#[tactic(auto, unfolding(csr::specs::Control::dropped))]
pub fn drop_packet(drop: bool, s: Side) -> Side
    ensures { result ≡ dropped drop s }
{
    Side {
        ready: s.ready & !drop,
        len: kept(drop, s.len),
        ..s
    }
}

// A bit's value in its place. (`u16::from(b) * n` says the same, but not that it is at most n, which each sum of them asks.)
pub fn weight(b: bool, n: u16) -> u16
    ensures { (result ≡ cond b n 0) × (result ≤ n) }
{
    if b { n } else { 0 }
}

// A waiting length within its area, and 0 where the ready bit is clear.
#[tactic(auto, unfolding(csr::specs::Sound::side_sound))]
pub fn side_sound(size: u16, s: Side) -> bool
    ensures { result ≡ side_sound size s }
{
    s.len <= weight(s.ready, size)
}
