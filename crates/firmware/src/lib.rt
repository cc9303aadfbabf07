// What an interrupt leads to, on a board around the driver: an example to begin from (docs/CALLS.md). Whatever arrives, and whatever is lent, a turn
// ends and nothing in it fails.

#![tactic(auto)]

mod chip;

use record::{Answered, Record, Reply};
use round_rules::PollResult;

// A packet has arrived: what became of it, and the record after the turn. (Refused, with 9, too long, or 17, the packet before it is unread, nothing of it
// has changed the record: the board keeps it in its chip, and tells it again.) After another interrupt the host's `collection`, `bus_reset`, .. stands in
// the place of `arrival`.
pub fn turn(
    k: Record,
    ep: u8,
    bytes: &[u8],
    buf: &mut [u8],
    fifo: &mut [u8],
    list: &mut [u16],
) -> Answered<Reply<()>> {
    let a = host::arrival(k, ep, bytes, fifo);
    let i = usb_device_interrupt::on_interrupt(a.record);
    Answered {
        record: polls(i.record, buf, fifo, list),
        answer: a.answer,
    }
}

// Reset, Resume and Suspend come first, one a poll, and such a poll has not looked at the endpoints: a packet may wait though no interrupt follows. So
// poll is called until it was a round; of four polls the fourth is one at the latest.
fn polls(mut k: Record, buf: &mut [u8], fifo: &[u8], list: &mut [u16]) -> Record {
    for _ in 0..4 {
        let p = usb_device_poll::poll(k, list);
        chip::carry_out(list, p.stores, fifo);
        k = p.record;
        match p.answer {
            Ok(PollResult::Data(m)) => {
                return read_named(k, m.ep_out | m.ep_setup, buf, fifo, list);
            }
            Ok(PollResult::Reset) => {
                let c = usb_device_reset::reset(k, list);
                chip::carry_out(list, c.stores, fifo);
                k = c.record;
            }
            Ok(PollResult::Resume | PollResult::Suspend) => {}
            // of a refusal 15: too little is lent; 16: a record that can't be
            Ok(PollResult::None) | Err(_) => return k,
        }
    }
    k
}

fn read_named(mut k: Record, named: u16, buf: &mut [u8], fifo: &[u8], list: &mut [u16]) -> Record {
    for ep in 0..6 {
        if (named >> ep) % 2 == 1 {
            let r = usb_device_read::read(k, ep, buf, fifo, list);
            chip::carry_out(list, r.stores, fifo);
            k = r.record;
            // refused with 6: named, and read already; 12, 13, 18: the packet still waits
            if let Ok(n) = r.answer {
                chip::received(ep, &buf[..n]);
            }
        }
    }
    k
}
