// `poll` of the source: the overrun check, Reset, Resume, Suspend, and then a round: endpoint 0, and the walk of the receive flags.

#![tactic(auto, using(round_rules::proofs::Poll::admitted), unfolding(round_rules::specs::Round::told, round_rules::specs::Poll::ended, round_rules::specs::Poll::walked_on, round_rules::specs::Poll::accepted_on, round_rules::specs::Poll::round_out, round_rules::specs::Poll::poll_logged, round_rules::specs::Poll::poll_served, round_rules::specs::Poll::poll_admitted, round_rules::specs::Poll::poll_call))]

ghost use Rattle.std.specs.Prelude.{◌≡◌, ◌+◌, ◌*◌, ◌≤◌, ◌<◌, length};
ghost use Rattle.store_rules.specs.Stores.{log};
ghost use Rattle.round_rules.specs.Round.{told};
ghost use Rattle.round_rules.specs.Poll.{outcome, after_of, round_out, poll_logged, poll_served, poll_admitted, poll_call};

use board::Board;
use control_state::ControlState;
use record::{Called, Flags, Ran, Record, Reply};
use round_rules::{Masks, PollResult};

pub fn poll(k: Record, list: &mut [u16]) -> Called<Reply<PollResult>>
    ensures { outcome result list.new ≡ poll_call k list.old }
{
    let mut o = Called {
        record: k,
        stores: 0,
        answer: Ok(PollResult::None),
    };
    let ran = admitted(
        k.regs.board,
        &mut o.record.regs.words,
        list,
        &mut o.record.control_state,
        &mut o.record.irq,
    );
    o.stores = ran.n;
    o.answer = ran.answer;
    o
}

fn admitted(
    b: Board,
    w: &mut [u16; 46],
    list: &mut [u16],
    c: &mut ControlState,
    f: &mut Flags,
) -> Ran<Reply<PollResult>>
    ensures { after_of result w.new list.new c.new f.new ≡ poll_admitted b w.old list.old c.old f.old }
{
    match record_ops::admit(list.len() < record_ops::LIST, b, w, *f, false) {
        Ok(()) => serve(b, w, list, c, f),
        Err(x) => record_ops::refused(x),
    }
}

fn serve(
    b: Board,
    w: &mut [u16; 46],
    list: &mut [u16],
    c: &mut ControlState,
    f: &mut Flags,
) -> Ran<Reply<PollResult>>
    requires { (f.old.ep_rx < 64) × (384 ≤ length list.old) }
    ensures { after_of result w.new list.new c.new f.new ≡ poll_served b (log w.old list.old 0) c.old f.old }
{
    let n = overrun::check_overrun(w, list, 0, record_ops::endpoints(b));
    by_flags(w, list, n, c, f)
}

// Reset, Resume, Suspend, and then a round: each step puts down its own flag. (The source's Suspend step puts down the reset flag and never its own, so
// that its port stays dead once the laptop has slept: docs/changes/T-06.md.)
fn by_flags(
    w: &mut [u16; 46],
    list: &mut [u16],
    n: usize,
    c: &mut ControlState,
    f: &mut Flags,
) -> Ran<Reply<PollResult>>
    requires { (f.old.ep_rx < 64) × (n * 3 + 24 ≤ length list.old) }
    ensures { after_of result w.new list.new c.new f.new ≡ poll_logged (log w.old list.old n) c.old f.old }
{
    if f.reset {
        f.reset = false;
        return answered(PollResult::Reset, n);
    }
    if f.resume {
        f.resume = false;
        return answered(PollResult::Resume, n);
    }
    if f.suspend {
        f.suspend = false;
        return answered(PollResult::Suspend, n);
    }
    round(w, list, n, c, f)
}

fn answered(a: PollResult, n: usize) -> Ran<Reply<PollResult>>
    ensures { result ≡ record { answer = Ok a; n = n } }
{
    Ran { answer: Ok(a), n }
}

fn round(
    w: &mut [u16; 46],
    list: &mut [u16],
    n: usize,
    c: &mut ControlState,
    f: &mut Flags,
) -> Ran<Reply<PollResult>>
    requires { (f.old.ep_rx < 64) × (n * 3 + 24 ≤ length list.old) }
    ensures { after_of result w.new list.new c.new f.new ≡ round_out (log w.old list.old n) c.old f.old }
{
    let (zeroed, setup) = poll_zero::endpoint_zero(w, list, n, c, f);
    poll_zero::accept(c, f);
    let walked = poll_walk::walk(&mut f.ep_rx, w, list, zeroed);
    let a = tell(f.ep_rx, f.ep_tx, setup);
    f.ep_tx = 0;
    answered(a, walked)
}

fn tell(out: u16, sent: u16, setup: bool) -> PollResult
    ensures { result ≡ told out sent setup }
{
    let m = Masks {
        ep_out: out,
        ep_in_complete: sent,
        ep_setup: u16::from(setup),
    };
    if (sent != 0) | (out != 0) | setup {
        return PollResult::Data(m);
    }
    PollResult::None
}
