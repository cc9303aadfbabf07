// The calls `set_stalled` and `is_stalled` of the source's usb_device_impl/mod.rs.

#![tactic(auto, unfolding(record::specs::Record::record_sound, record::specs::Record::endpoints_of))]

ghost use Rattle.std.specs.Prelude.{◌≡◌, ◌+◌, ◌*◌, ◌≤◌, length, leb, ltb, Ok};
ghost use Rattle.record.specs.Record.{passes, endpoints_in, admission_by, list_need};
ghost use Rattle.store_rules.specs.Stores.{log, write_index};
ghost use Rattle.common_rules.specs.Common.{is_stalled};
ghost use Rattle.call_rules.specs.Stall.{ep_stall, after_stall, set_stalled_call, is_stalled_call};

use board::{Board, Direction};
use common_rules::Stalled;
use control_state::ControlState;
use record::{Called, Flags, Ran, Record, Reply};
use register_file::Regs;

pub fn set_stalled(
    k: Record,
    ep: u8,
    direction: Direction,
    stalled: bool,
    list: &mut [u16],
) -> Called<Reply<()>>
    ensures { record { call = result; list = list.new } ≡ set_stalled_call k ep direction stalled list.old }
{
    let mut w = k.regs.words;
    let mut c = k.control_state;
    let ran = match admit_at(list.len(), k.regs.board, &w, k.irq, ep) {
        Ok(()) => {
            c = after_stall(c, ep, stalled);
            Ran {
                answer: Ok(()),
                n: ep_stall(&mut w, list, 0, ep, direction, stalled),
            }
        }
        Err(x) => record_ops::refused(x),
    };
    Called {
        record: Record {
            regs: Regs { words: w, ..k.regs },
            control_state: c,
            ..k
        },
        stores: ran.n,
        answer: ran.answer,
    }
}

// The tests that come first in a call at an endpoint. (As `usb_device_impl::admit_at`, lent the registers that are changed later: lent the record, it is copied once more.)
fn admit_at(numbers: usize, b: Board, w: &[u16; 46], f: Flags, ep: u8) -> Reply<()>
    ensures { (result ≡ admission_by (ltb numbers list_need) (passes b w.now f) (leb (endpoints_in b) ep)) × (result ≡ Ok tt → list_need ≤ numbers) }
{
    record_ops::admit(
        numbers < record_ops::LIST,
        b,
        w,
        f,
        record_ops::endpoints(b) <= ep,
    )
}

// The direction goes to the source's two names, here and in `ep_is_stalled`. Out of line: built in, its words are spread over registers (bench/RESULTS.md).
#[inline(never)]
fn ep_stall(
    w: &mut [u16; 46],
    list: &mut [u16],
    n: usize,
    index: u8,
    direction: Direction,
    stalled: bool,
) -> usize
    requires { n * 3 + 6 ≤ length list.old }
    ensures { log w.new list.new result ≡ ep_stall direction index stalled (log w.old list.old n) }
{
    match direction {
        Direction::In => common_impl::ep_tx_stall(w, list, n, index, stalled),
        Direction::Out => common_impl::ep_rx_stall(w, list, n, index, stalled),
    }
}

// A stall of endpoint 0 ends its transfer.
fn after_stall(c: ControlState, index: u8, stalled: bool) -> ControlState
    ensures { result ≡ after_stall index stalled c }
{
    if (index == 0) & stalled {
        return usb_device_impl::idle(c);
    }
    c
}

pub fn is_stalled(k: Record, ep: u8, direction: Direction, list: &mut [u16]) -> Called<Reply<bool>>
    ensures { record { call = result; list = list.new } ≡ is_stalled_call k ep direction list.old }
{
    let mut w = k.regs.words;
    let ran = match admit_at(list.len(), k.regs.board, &w, k.irq, ep) {
        Ok(()) => {
            let told = ep_is_stalled(&mut w, list, 0, ep, direction);
            Ran {
                answer: Ok(told.stalled),
                n: told.n,
            }
        }
        Err(x) => record_ops::refused(x),
    };
    Called {
        record: Record {
            regs: Regs { words: w, ..k.regs },
            ..k
        },
        stores: ran.n,
        answer: ran.answer,
    }
}

fn ep_is_stalled(
    w: &mut [u16; 46],
    list: &mut [u16],
    n: usize,
    index: u8,
    direction: Direction,
) -> Stalled
    requires { n * 3 + 3 ≤ length list.old }
    ensures { (log w.new list.new result.n ≡ write_index index (log w.old list.old n)) × (result.stalled ≡ is_stalled direction index (log w.old list.old n)) }
{
    match direction {
        Direction::In => common_impl::ep_tx_is_stalled(w, list, n, index),
        Direction::Out => common_impl::ep_rx_is_stalled(w, list, n, index),
    }
}
