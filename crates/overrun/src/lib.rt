// What the source keeps in its common_impl.rs, third part: the repair of overruns.
// Each function is lent the register file, takes how many stores stand in the lent list, and gives back how many stand there now.

#![tactic(auto)]

ghost use Rattle.std.specs.Prelude.{◌≡◌, ◌+◌, ◌*◌, ◌≤◌, length};
ghost use Rattle.store_rules.specs.Stores.{log};
ghost use Rattle.common_rules.specs.Overrun.{under_run_cleared, over_run_cleared, missed_at, missed_to, selected_below, repaired_below, check_overrun};

use board::Direction;
use csr::{Rxcsrl, RxcsrlSet, Txcsrl, TxcsrlSet};
use stores::Control;

// Most often nothing is to be repaired.
// (The count is at most six, as `record_ops::endpoints` says of a board: here the number alone is lent.)
pub fn check_overrun(w: &mut [u16; 46], list: &mut [u16], n: usize, count: u8) -> usize
    requires { (n * 3 + 45 ≤ length list.old) × (count ≤ 6) }
    ensures { (log w.new list.new result ≡ check_overrun count (log w.old list.old n)) × (result ≤ n + 15) }
{
    if some_missed(w) {
        return repair_each(w, list, n, count);
    }
    select_each(w, list, n, count)
}

// Of any endpoint of 1 to 5. No early end: so the tests are made several at a time.
fn some_missed(w: &[u16; 46]) -> bool
    ensures { result ≡ missed_to 5 w.now }
{
    let mut any = false;
    for e in 1..6u16 {
        any |= has_missed(w, e);
    }
    any
}

// UnderRun or OverRun of an endpoint.
fn has_missed(w: &[u16; 46], e: u16) -> bool
    ensures { result ≡ missed_at w.now e }
{
    let tx = regs::side_at(w, e, Direction::In);
    let rx = regs::side_at(w, e, Direction::Out);
    tx.missed | rx.missed
}

// Each endpoint is selected, and what it missed is repaired. Rare, and out of line: built in it would cost every poll some 25 instructions.
#[inline(never)]
fn repair_each(w: &mut [u16; 46], list: &mut [u16], n: usize, count: u8) -> usize
    requires { (n * 3 + 45 ≤ length list.old) × (count ≤ 6) }
    ensures { (log w.new list.new result ≡ repaired_below count (log w.old list.old n)) × (result ≤ n + 15) }
{
    let mut m = n;
    for index in 1..count {
        m = stores::write_index(w, list, m, index);
        m = repair(w, list, m);
    }
    m
}

fn repair(w: &mut [u16; 46], list: &mut [u16], n: usize) -> usize
    requires { n * 3 + 6 ≤ length list.old }
    ensures { (log w.new list.new result ≡ over_run_cleared (under_run_cleared (log w.old list.old n))) × (result ≤ n + 2) }
{
    let a = clear_under_run(w, list, n);
    clear_over_run(w, list, a)
}

// (Twins but for the bit that is tested and what puts it down, which are all that they have.)
fn clear_under_run(w: &mut [u16; 46], list: &mut [u16], n: usize) -> usize
    requires { n * 3 + 3 ≤ length list.old }
    ensures { (log w.new list.new result ≡ under_run_cleared (log w.old list.old n)) × (result ≤ n + 1) }
{
    let v = Txcsrl::read(w);
    if v.under_run {
        return stores::modify::<Txcsrl>(w, list, n, TxcsrlSet::NoUnderRun);
    }
    n
}

fn clear_over_run(w: &mut [u16; 46], list: &mut [u16], n: usize) -> usize
    requires { n * 3 + 3 ≤ length list.old }
    ensures { (log w.new list.new result ≡ over_run_cleared (log w.old list.old n)) × (result ≤ n + 1) }
{
    let v = Rxcsrl::read(w);
    if v.over_run {
        return stores::modify::<Rxcsrl>(w, list, n, RxcsrlSet::NoOverRun);
    }
    n
}

// `repair_each` where nothing is to be repaired: the index stores alone.
// (Not one walk with a closure: that would be built in, and `repair_each` has to stay out of line.)
fn select_each(w: &mut [u16; 46], list: &mut [u16], n: usize, count: u8) -> usize
    requires { (n * 3 + 45 ≤ length list.old) × (count ≤ 6) }
    ensures { (log w.new list.new result ≡ selected_below count (log w.old list.old n)) × (result ≤ n + 15) }
{
    let mut m = n;
    for e in 1..count {
        m = stores::write_index(w, list, m, e);
    }
    m
}
