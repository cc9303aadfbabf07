// The walk of `poll` of the source over the receive flags.

#![tactic(auto, using(laws::proofs::Words::and_clear_lem, laws::proofs::Words::clear_lt, laws::proofs::Words::tz_lowest))]

ghost use Rattle.std.specs.Prelude.{◌≡◌, ◌+◌, ◌*◌, ◌≤◌, ◌<◌, length, MatchOption};
ghost use Rattle.std.specs.Iterator.{at_most};
ghost use Rattle.laws.specs.Words.{clear, Lowest};
ghost use Rattle.store_rules.specs.Stores.{log};
ghost use Rattle.round_rules.specs.Walk.{walk, walked};

use board::Direction;

// A word without one of its flags.
pub fn without(w: u16, i: u8) -> u16
    requires { (w < 64) × (i < 6) }
    ensures { (result ≡ clear w i) × (result < 64) }
{
    w & !(1u16 << i)
}

// The source's `BitIter`: the set bits of a word, lowest first.
#[derive(Drop)]
struct BitIter {
    bits: u16,
    ghost low: { bits < 64 },
}

impl Iterator for BitIter {
    type Item = u8;

    ghost next_gives = { λ s r t. MatchOption r (s.bits ≡ 0) (λ e. Lowest s.bits e × (t.bits ≡ clear s.bits e)) };

    ghost remaining = { λ s. at_most s.bits };

    fn next(&mut self) -> Option<u8> {
        if self.bits == 0 {
            return None;
        }
        let e = lowest(self.bits);
        self.bits = without(self.bits, e);
        Some(e)
    }
}

// The source's `for index in BitIter(rx_flags)`, over the flags as first read; a drained one is put down.
pub fn walk(flags: &mut u16, w: &mut [u16; 46], list: &mut [u16], n: usize) -> usize
    requires { (flags.old < 64) × (n * 3 + 18 ≤ length list.old) }
    ensures { walk (log w.new list.new result) flags.new ≡ walked flags.old (log w.old list.old n) }
{
    let first = *flags;
    let set = BitIter { bits: first };
    let mut m = n;
    for e in set {
        m = stores::write_index(w, list, m, e);
        if !regs::waits(w, e, Direction::Out) {
            *flags = without(first, e);
        }
    }
    m
}

// The lowest set bit.
fn lowest(w: u16) -> u8
    requires { (0 < w) × (w < 64) }
    ensures { Lowest w result }
{
    u16::trailing_zeros(w) as u8
}
