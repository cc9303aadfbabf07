// Every store of the source: what it does to the register file, and its place in the lent list.
// A function that stores takes how many stores stand in the list and gives back how many stand there now.
// (A struct of the register file, the list and the count would have to say in each contract that it holds the same two still: no plainer.)

#![tactic(auto)]

ghost use Rattle.std.specs.Prelude.{◌≡◌, ℕ, ◌+◌, ◌*◌, ◌≤◌, ◌<◌, length};
ghost use Rattle.board.specs.declared.Direction.TheVariants.{Out, In};
ghost use Rattle.csr.specs.Control.{zero_csr0l, zero_txcsrl, zero_rxcsrl, csr0l_number, txcsrl_number, rxcsrl_number, txcsrl_of, rxcsrl_of, csr0l_set, txcsrl_set, rxcsrl_set};
ghost use Rattle.register_file.specs.Registers.{File, chosen, enabled_of, with_enabled};
ghost use Rattle.register_file.specs.Control.{csr0l_read, csr0l_stored};
ghost use Rattle.store_rules.specs.Stores.{Log, log, listing, with_own, write_faddr, write_power, write_index, write_csr0l, write_txcsrl, write_rxcsrl, modify_csr0l, modify_txcsrl, modify_rxcsrl, flush_csr0h, write_iso, write_maxp, write_intrusbe, write_intre, modify_intre, write_packet};
ghost use Rattle.stores.specs.Control.{txcsrl_stored, rxcsrl_stored, csr0l_listed, txcsrl_listed, rxcsrl_listed, csr0l_modified, txcsrl_modified, rxcsrl_modified};

use board::Direction;
use csr::{Csr0l, Csr0lSet, Rxcsrl, RxcsrlSet, Side, Txcsrl, TxcsrlSet};

// The store that left these registers, listed.
#[tactic(auto, unfolding(store_rules::specs::Stores::listing, register_file::specs::Registers::index))]
fn note(w: &[u16; 46], list: &mut [u16], n: usize, register: u16, value: u16) -> usize
    requires { n * 3 + 3 ≤ length list.old }
    ensures { (log w.now list.new result ≡ listing register value w.now list.old n) × (result ≡ n + 1) }
{
    store_list::put(list, n, register, w[regs::INDEX], value)
}

// (A store of a word is a function of its own, two lines each: in one over place, number and value a clause would choose among three definitions.)
#[tactic(auto, unfolding(store_rules::specs::Stores::write_faddr, register_file::specs::Registers::with_faddr))]
pub fn write_faddr(w: &mut [u16; 46], list: &mut [u16], n: usize, addr: u8) -> usize
    requires { n * 3 + 3 ≤ length list.old }
    ensures { (log w.new list.new result ≡ write_faddr addr (log w.old list.old n)) × (result ≡ n + 1) }
{
    w[regs::FADDR] = addr as u16;
    note(w, list, n, store_list::FADDR, addr as u16)
}

#[tactic(auto, unfolding(store_rules::specs::Stores::write_power, register_file::specs::Registers::with_power))]
pub fn write_power(w: &mut [u16; 46], list: &mut [u16], n: usize) -> usize
    requires { n * 3 + 3 ≤ length list.old }
    ensures { (log w.new list.new result ≡ write_power (log w.old list.old n)) × (result ≡ n + 1) }
{
    w[regs::POWER] = 1;
    note(w, list, n, store_list::POWER, 1)
}

#[tactic(auto, unfolding(store_rules::specs::Stores::write_index, register_file::specs::Registers::with_index))]
pub fn write_index(w: &mut [u16; 46], list: &mut [u16], n: usize, e: u8) -> usize
    requires { n * 3 + 3 ≤ length list.old }
    ensures { (log w.new list.new result ≡ write_index e (log w.old list.old n)) × (result ≡ n + 1) }
{
    w[regs::INDEX] = e as u16;
    store_list::put(list, n, store_list::INDEX, e as u16, e as u16)
}

// Another state of the selected endpoint's side, by one of the registers that endpoints 1 to 5 have each for itself. Endpoint 0 has none of them.
fn put_own(w: &mut [u16; 46], e: u16, d: Direction, s: Side)
    ensures { w.new ≡ with_own w.old e d s }
{
    if e == 0 {
        return;
    }
    regs::put_side(w, e, d, s);
}

// A control register: CSR0L, which is endpoint 0's; TXCSRL and RXCSRL, the selected endpoint's.
pub trait Control: Copy {
    // What the source's closures set in a `modify` of it.
    type Set;

    // What it shows of the file: the selected endpoint's side. A `modify` looks for it once.
    type Part: Copy;

    // Its number.
    const REGISTER: u16;

    ghost REGISTER: { ℕ };

    ghost zeros: { Self };

    ghost number: { Self → ℕ };

    ghost part: { File → Self.Part };

    ghost of: { Self.Part → Self };

    ghost set: { Self.Set → Self → Self };

    ghost stored: { Self → File → File };

    ghost write: { Self → Log → Log };

    ghost modify: { Self.Set → Log → Log };

    // What the source's `write` starts from: each bit 0.
    fn zeros() -> Self
        ensures { result ≡ zeros };

    // What the list has of it. (No `From`: an impl of std's trait stands with its type, in `csr`, and what weighs the bits stands above it, in csr_ops.)
    fn number(self) -> u16
        ensures { result ≡ number self };

    fn part(w: &[u16; 46]) -> Self::Part
        ensures { result ≡ part w.now };

    fn of(p: Self::Part) -> Self
        ensures { result ≡ of p };

    fn read(w: &[u16; 46]) -> Self
        ensures { result ≡ of (part w.now) }
    {
        Self::of(Self::part(w))
    }

    fn set(self, s: Self::Set) -> Self
        ensures { result ≡ set s self };

    // What a store to it changes, where it showed p.
    fn store(self, w: &mut [u16; 46], p: Self::Part)
        requires { p ≡ part w.old }
        ensures { w.new ≡ stored self w.old };

    ghost listed: { (v : Self) (g : Log) → write v g ≡ listing REGISTER (number v) (stored v g.regs) g.list g.count };

    ghost modified: { (s : Self.Set) (g : Log) → modify s g ≡ write (set s (of (part g.regs))) g };
}

impl Control for Csr0l {
    type Set = Csr0lSet;

    type Part = Csr0l;

    const REGISTER: u16 = store_list::CSR0L;

    ghost REGISTER = { 4 };

    ghost zeros = { zero_csr0l };

    ghost number = { csr0l_number };

    ghost part = { csr0l_read };

    ghost of = { λ v. v };

    ghost set = { csr0l_set };

    ghost stored = { csr0l_stored };

    ghost write = { write_csr0l };

    ghost modify = { modify_csr0l };

    ghost listed = { csr0l_listed };

    ghost modified = { csr0l_modified };

    fn zeros() -> Csr0l {
        Csr0l::default()
    }

    #[tactic(auto, unfolding(csr::specs::Control::csr0l_number))]
    fn number(self) -> u16 {
        csr_ops::weight(self.rx_pkt_rdy, 1)
            + csr_ops::weight(self.tx_pkt_rdy, 2)
            + csr_ops::weight(self.sent_stall, 4)
            + csr_ops::weight(self.data_end, 8)
            + csr_ops::weight(self.setup_end, 16)
            + csr_ops::weight(self.send_stall, 32)
            + csr_ops::weight(self.serviced_rx_pkt_rdy, 64)
            + csr_ops::weight(self.serviced_setup_end, 128)
    }

    #[tactic(auto, unfolding(register_file::specs::Control::csr0l_read, register_file::specs::Registers::setupend))]
    fn part(w: &[u16; 46]) -> Csr0l {
        let tx = regs::side_at(w, 0, Direction::In);
        let rx = regs::side_at(w, 0, Direction::Out);
        Csr0l {
            rx_pkt_rdy: rx.ready,
            tx_pkt_rdy: tx.ready,
            sent_stall: tx.stalled,
            setup_end: w[regs::SETUPEND] == 1,
            send_stall: tx.stall,
            ..Csr0l::default()
        }
    }

    fn of(v: Csr0l) -> Csr0l {
        v
    }

    #[tactic(auto, unfolding(csr::specs::Control::csr0l_set))]
    fn set(self, s: Csr0lSet) -> Csr0l {
        match s {
            Csr0lSet::TxPktRdy => Csr0l {
                tx_pkt_rdy: true,
                ..self
            },
            Csr0lSet::DataEnd => Csr0l {
                data_end: true,
                ..self
            },
            Csr0lSet::ServicedRxPktRdy => Csr0l {
                serviced_rx_pkt_rdy: true,
                ..self
            },
            Csr0lSet::ServicedSetupEnd => Csr0l {
                serviced_setup_end: true,
                ..self
            },
            Csr0lSet::ServicedBoth => Csr0l {
                serviced_rx_pkt_rdy: true,
                serviced_setup_end: true,
                ..self
            },
        }
    }

    fn store(self, w: &mut [u16; 46], _v: Csr0l) {
        regs::store_csr0l(w, self);
    }
}

impl Control for Txcsrl {
    type Set = TxcsrlSet;

    type Part = Side;

    const REGISTER: u16 = store_list::TXCSRL;

    ghost REGISTER = { 6 };

    ghost zeros = { zero_txcsrl };

    ghost number = { txcsrl_number };

    ghost part = { λ r. chosen r In };

    ghost of = { txcsrl_of };

    ghost set = { txcsrl_set };

    ghost stored = { txcsrl_stored };

    ghost write = { write_txcsrl };

    ghost modify = { modify_txcsrl };

    ghost listed = { txcsrl_listed };

    ghost modified = { txcsrl_modified };

    fn zeros() -> Txcsrl {
        Txcsrl::default()
    }

    #[tactic(auto, unfolding(csr::specs::Control::txcsrl_number))]
    fn number(self) -> u16 {
        csr_ops::weight(self.tx_pkt_rdy, 1)
            + csr_ops::weight(self.fifo_not_empty, 2)
            + csr_ops::weight(self.under_run, 4)
            + csr_ops::weight(self.flush_fifo, 8)
            + csr_ops::weight(self.send_stall, 16)
            + csr_ops::weight(self.sent_stall, 32)
            + csr_ops::weight(self.clr_data_tog, 64)
    }

    #[tactic(auto, unfolding(register_file::specs::Registers::index))]
    fn part(w: &[u16; 46]) -> Side {
        regs::side_at(w, w[regs::INDEX], Direction::In)
    }

    #[tactic(auto, unfolding(csr::specs::Control::txcsrl_of))]
    fn of(s: Side) -> Txcsrl {
        Txcsrl {
            tx_pkt_rdy: s.ready,
            fifo_not_empty: s.ready,
            under_run: s.missed,
            send_stall: s.stall,
            sent_stall: s.stalled,
            ..Txcsrl::default()
        }
    }

    #[tactic(auto, unfolding(csr::specs::Control::txcsrl_set))]
    fn set(self, s: TxcsrlSet) -> Txcsrl {
        match s {
            TxcsrlSet::TxPktRdy => Txcsrl {
                tx_pkt_rdy: true,
                ..self
            },
            TxcsrlSet::FlushFifo => Txcsrl {
                flush_fifo: true,
                ..self
            },
            TxcsrlSet::NoUnderRun => Txcsrl {
                under_run: false,
                ..self
            },
        }
    }

    #[tactic(auto, unfolding(register_file::specs::Registers::index))]
    fn store(self, w: &mut [u16; 46], s: Side) {
        let e = w[regs::INDEX];
        put_own(w, e, Direction::In, csr_ops::tx_stored(self, s));
    }
}

impl Control for Rxcsrl {
    type Set = RxcsrlSet;

    type Part = Side;

    const REGISTER: u16 = store_list::RXCSRL;

    ghost REGISTER = { 7 };

    ghost zeros = { zero_rxcsrl };

    ghost number = { rxcsrl_number };

    ghost part = { λ r. chosen r Out };

    ghost of = { rxcsrl_of };

    ghost set = { rxcsrl_set };

    ghost stored = { rxcsrl_stored };

    ghost write = { write_rxcsrl };

    ghost modify = { modify_rxcsrl };

    ghost listed = { rxcsrl_listed };

    ghost modified = { rxcsrl_modified };

    fn zeros() -> Rxcsrl {
        Rxcsrl::default()
    }

    #[tactic(auto, unfolding(csr::specs::Control::rxcsrl_number))]
    fn number(self) -> u16 {
        csr_ops::weight(self.rx_pkt_rdy, 1)
            + csr_ops::weight(self.fifo_full, 2)
            + csr_ops::weight(self.over_run, 4)
            + csr_ops::weight(self.data_error, 8)
            + csr_ops::weight(self.flush_fifo, 16)
            + csr_ops::weight(self.send_stall, 32)
            + csr_ops::weight(self.sent_stall, 64)
            + csr_ops::weight(self.clr_data_tog, 128)
    }

    #[tactic(auto, unfolding(register_file::specs::Registers::index))]
    fn part(w: &[u16; 46]) -> Side {
        regs::side_at(w, w[regs::INDEX], Direction::Out)
    }

    #[tactic(auto, unfolding(csr::specs::Control::rxcsrl_of))]
    fn of(s: Side) -> Rxcsrl {
        Rxcsrl {
            rx_pkt_rdy: s.ready,
            over_run: s.missed,
            send_stall: s.stall,
            sent_stall: s.stalled,
            ..Rxcsrl::default()
        }
    }

    #[tactic(auto, unfolding(csr::specs::Control::rxcsrl_set))]
    fn set(self, s: RxcsrlSet) -> Rxcsrl {
        match s {
            RxcsrlSet::NoRxPktRdy => Rxcsrl {
                rx_pkt_rdy: false,
                ..self
            },
            RxcsrlSet::FlushFifo => Rxcsrl {
                flush_fifo: true,
                ..self
            },
            RxcsrlSet::NoOverRun => Rxcsrl {
                over_run: false,
                ..self
            },
        }
    }

    #[tactic(auto, unfolding(register_file::specs::Registers::index))]
    fn store(self, w: &mut [u16; 46], s: Side) {
        let e = w[regs::INDEX];
        put_own(w, e, Direction::Out, csr_ops::rx_stored(self, s));
    }
}

// A store of a control register that showed p. It is built into each caller, as are `write` and `modify`: there the bits are known.
#[inline(always)]
fn put<R: Control>(w: &mut [u16; 46], list: &mut [u16], n: usize, v: R, p: R::Part) -> usize
    requires shown { p ≡ R.part w.old }
    requires room { n * 3 + 3 ≤ length list.old }
    ensures { (log w.new list.new result ≡ R.write v (log w.old list.old n)) × (result ≡ n + 1) }
{
    v.store(w, p);
    note(w, list, n, R::REGISTER, v.number())
}

// The source's `write` of a control register.
#[inline(always)]
pub fn write<R: Control>(w: &mut [u16; 46], list: &mut [u16], n: usize, v: R) -> usize
    requires { n * 3 + 3 ≤ length list.old }
    ensures { (log w.new list.new result ≡ R.write v (log w.old list.old n)) × (result ≡ n + 1) }
{
    let p = R::part(w);
    put(w, list, n, v, p)
}

// And its `modify`: what is read, with a bit set, is written. Built into its callers, where register and bit are known: a read takes some 70 instructions less.
#[inline(always)]
pub fn modify<R: Control>(w: &mut [u16; 46], list: &mut [u16], n: usize, s: R::Set) -> usize
    requires { n * 3 + 3 ≤ length list.old }
    ensures { (log w.new list.new result ≡ R.modify s (log w.old list.old n)) × (result ≡ n + 1) }
{
    let p = R::part(w);
    let read = R::of(p);
    put(w, list, n, read.set(s), p)
}

// CSR0H reads 0, so that `modify` with the flush bit stores that bit alone.
#[tactic(auto, unfolding(store_rules::specs::Stores::flush_csr0h))]
pub fn flush_csr0h(w: &mut [u16; 46], list: &mut [u16], n: usize) -> usize
    requires { n * 3 + 3 ≤ length list.old }
    ensures { (log w.new list.new result ≡ flush_csr0h (log w.old list.old n)) × (result ≡ n + 1) }
{
    regs::flush_csr0h(w);
    note(w, list, n, store_list::CSR0H, 1)
}

#[tactic(auto, unfolding(store_rules::specs::Stores::write_iso, register_file::specs::Registers::index))]
pub fn write_iso(w: &mut [u16; 46], list: &mut [u16], n: usize, d: Direction) -> usize
    requires { n * 3 + 3 ≤ length list.old }
    ensures { (log w.new list.new result ≡ write_iso d (log w.old list.old n)) × (result ≡ n + 1) }
{
    let e = w[regs::INDEX];
    let mut s = regs::side_at(w, e, d);
    s.iso = true;
    put_own(w, e, d, s);
    note(w, list, n, store_list::csrh_of(d), 64)
}

#[tactic(auto, unfolding(store_rules::specs::Stores::write_maxp, register_file::specs::Registers::index))]
pub fn write_maxp(w: &mut [u16; 46], list: &mut [u16], n: usize, d: Direction, size: u16) -> usize
    requires { n * 3 + 3 ≤ length list.old }
    ensures { (log w.new list.new result ≡ write_maxp d size (log w.old list.old n)) × (result ≡ n + 1) }
{
    let e = w[regs::INDEX];
    let mut s = regs::side_at(w, e, d);
    s.maxp = size;
    put_own(w, e, d, s);
    note(w, list, n, store_list::maxp_of(d), size)
}

#[tactic(auto, unfolding(store_rules::specs::Stores::write_intrusbe, register_file::specs::Registers::with_intrusbe))]
pub fn write_intrusbe(w: &mut [u16; 46], list: &mut [u16], n: usize) -> usize
    requires { n * 3 + 3 ≤ length list.old }
    ensures { (log w.new list.new result ≡ write_intrusbe (log w.old list.old n)) × (result ≡ n + 1) }
{
    w[regs::INTRUSBE] = 7;
    note(w, list, n, store_list::INTRUSBE, 7)
}

// Twins of `intr_of` and `put_intr` of events but for their places. One pair of functions would be given the places, and each caller would prove the two cases.
#[tactic(auto, unfolding(register_file::specs::Registers::enabled_of))]
fn enable_of(w: &[u16; 46], d: Direction) -> u16
    ensures { result ≡ enabled_of d w.now }
{
    match d {
        Direction::Out => w[regs::INTRRXE],
        Direction::In => w[regs::INTRTXE],
    }
}

#[tactic(auto, unfolding(register_file::specs::Registers::with_enabled))]
fn put_enable(w: &mut [u16; 46], d: Direction, v: u16)
    ensures { w.new ≡ with_enabled d v w.old }
{
    match d {
        Direction::Out => {
            w[regs::INTRRXE] = v;
        }
        Direction::In => {
            w[regs::INTRTXE] = v;
        }
    }
}

#[tactic(auto, unfolding(store_rules::specs::Stores::write_intre))]
pub fn write_intre(w: &mut [u16; 46], list: &mut [u16], n: usize, d: Direction, v: u16) -> usize
    requires { n * 3 + 3 ≤ length list.old }
    ensures { (log w.new list.new result ≡ write_intre d v (log w.old list.old n)) × (result ≡ n + 1) }
{
    put_enable(w, d, v);
    note(w, list, n, store_list::intre_of(d), v)
}

// (An endpoint's number is a u8 without a bound of its own: the calls take any, and reply 8 refuses what is over.)
#[tactic(auto, unfolding(store_rules::specs::Stores::modify_intre))]
pub fn modify_intre(w: &mut [u16; 46], list: &mut [u16], n: usize, d: Direction, e: u8) -> usize
    requires { (e < 16) × (n * 3 + 3 ≤ length list.old) }
    ensures { (log w.new list.new result ≡ modify_intre d e (log w.old list.old n)) × (result ≡ n + 1) }
{
    let v = laws::raise(enable_of(w, d), e);
    write_intre(w, list, n, d, v)
}

// A packet of so many bytes stands in the selected endpoint's transmit area: one store, none if it is empty.
pub fn write_packet(w: &mut [u16; 46], list: &mut [u16], n: usize, len: u16) -> usize
    requires { n * 3 + 3 ≤ length list.old }
    ensures { (log w.new list.new result ≡ write_packet len (log w.old list.old n)) × (result ≤ n + 1) }
{
    if len == 0 {
        return n;
    }
    let e = w[regs::INDEX];
    let mut s = regs::side_at(w, e, Direction::In);
    s.len = len;
    regs::put_side(w, e, Direction::In, s);
    note(w, list, n, store_list::FIFO, len)
}
