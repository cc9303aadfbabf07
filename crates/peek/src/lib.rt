// What `write` and `read` share: whether enough is lent, and the two endings that both have.

#![tactic(auto)]

ghost use Rattle.std.specs.Prelude.{◌≡◌, ◌+◌, ◌*◌, ◌≤◌, length};
ghost use Rattle.csr.specs.declared.Csr0lSet.TheVariants.{DataEnd};
ghost use Rattle.store_rules.specs.Stores.{log, write_index, modify_csr0l};
ghost use Rattle.record.specs.declared.Refusal.TheVariants.{WouldBlock};
ghost use Rattle.transfer_rules.specs.Peek.{short_in};

use board::Board;
use csr::{Csr0l, Csr0lSet};
use record::{Ran, Refusal, Reply};

#[tactic(auto, unfolding(transfer_rules::specs::Peek::short_in))]
pub fn is_short(b: Board, fifo: usize, list: usize) -> bool
    ensures { result ≡ short_in b fifo list }
{
    (fifo < record_ops::need(b)) | (list < record_ops::LIST)
}

// Reply 6: the endpoint is selected, and that store is listed.
pub fn block(w: &mut [u16; 46], list: &mut [u16], ep: u8) -> Ran<Reply<usize>>
    requires { 3 ≤ length list.old }
    ensures { (log w.new list.new result.n ≡ write_index ep (log w.old list.old 0)) × (result.answer ≡ Err WouldBlock) }
{
    Ran {
        answer: Err(Refusal::WouldBlock),
        n: stores::write_index(w, list, 0, ep),
    }
}

// A transfer that ends: DataEnd.
pub fn end(w: &mut [u16; 46], list: &mut [u16], n: usize) -> usize
    requires { n * 3 + 3 ≤ length list.old }
    ensures { log w.new list.new result ≡ modify_csr0l DataEnd (log w.old list.old n) }
{
    stores::modify::<Csr0l>(w, list, n, Csr0lSet::DataEnd)
}
