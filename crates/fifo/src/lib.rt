// FIFO memory: one lent buffer. A packet goes to the part of it that begins at the endpoint's area.

#![tactic(auto)]

ghost use Rattle.std.specs.Prelude.{◌≡◌, ◌+◌, ◌≤◌, length, take, drop};
ghost use Rattle.laws.specs.Lists.{pasted};

use board::Span;

// A packet's bytes into its area: only the first bytes of the area change.
pub fn put_bytes(fifo: &mut [u8], area: Span, bytes: &[u8])
    requires { (length bytes.now ≤ area.size) × (area.start + area.size ≤ length fifo.old) }
    ensures { fifo.new ≡ pasted fifo.old area.start bytes.now }
{
    let at = area.start;
    let end = at + bytes.len();
    fifo[at..end].copy_from_slice(bytes);
}

// Copies a packet of n bytes out of its area, to the front of buf.
// (The whole buffer and n, not its first n bytes: the contract says what stays behind them.)
pub fn take_bytes(fifo: &[u8], area: Span, n: usize, buf: &mut [u8])
    requires { (n ≤ area.size) × (area.start + area.size ≤ length fifo.now) × (n ≤ length buf.old) }
    ensures { buf.new ≡ pasted buf.old 0 (take n (drop area.start fifo.now)) }
{
    let start = area.start;
    let end = start + n;
    buf[..n].copy_from_slice(&fifo[start..end]);
}
