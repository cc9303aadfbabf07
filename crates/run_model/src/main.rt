// Runs document 01's register model step by step: single stores, host events and reads, as a script on standard input has them, and prints
// after each what it read, the store that it listed and the record, in the detail report's own lines. The file `steps` is the script to be
// read; `make` writes it to stdin, and has the register model of oracle/, written apart from ours, write stdout.
//
// The script begins with 768 bytes that count up, from which packets are taken; then a step is five bytes.

#![tactic(auto)]

ghost use Rattle.std.specs.Prelude.{◌+◌, ◌≤◌, ◌<◌, length};

use board::{Board, Direction};
use csr::{Csr0l, Csr0lSet, Rxcsrl, RxcsrlSet, Txcsrl, TxcsrlSet};
use event_rules::BusEvent;
use register_file::Regs;
use std::io;
use std::io::Write;

// Which bits of a number are which flags. Three structs of their own flags in their own order: one function for them would need such a table for each.
fn csr0l_of(v: u16) -> Csr0l {
    Csr0l {
        rx_pkt_rdy: laws::has_bit(v, 0),
        tx_pkt_rdy: laws::has_bit(v, 1),
        sent_stall: laws::has_bit(v, 2),
        data_end: laws::has_bit(v, 3),
        setup_end: laws::has_bit(v, 4),
        send_stall: laws::has_bit(v, 5),
        serviced_rx_pkt_rdy: laws::has_bit(v, 6),
        serviced_setup_end: laws::has_bit(v, 7),
    }
}

fn txcsrl_of(v: u16) -> Txcsrl {
    Txcsrl {
        tx_pkt_rdy: laws::has_bit(v, 0),
        fifo_not_empty: laws::has_bit(v, 1),
        under_run: laws::has_bit(v, 2),
        flush_fifo: laws::has_bit(v, 3),
        send_stall: laws::has_bit(v, 4),
        sent_stall: laws::has_bit(v, 5),
        clr_data_tog: laws::has_bit(v, 6),
    }
}

fn rxcsrl_of(v: u16) -> Rxcsrl {
    Rxcsrl {
        rx_pkt_rdy: laws::has_bit(v, 0),
        fifo_full: laws::has_bit(v, 1),
        over_run: laws::has_bit(v, 2),
        data_error: laws::has_bit(v, 3),
        flush_fifo: laws::has_bit(v, 4),
        send_stall: laws::has_bit(v, 5),
        sent_stall: laws::has_bit(v, 6),
        clr_data_tog: laws::has_bit(v, 7),
    }
}

// Of two steps that differ in their side alone the even one is the transmit side's.
fn side(code: u8) -> Direction {
    if code % 2 == 0 {
        Direction::In
    } else {
        Direction::Out
    }
}

// The stores, by document 01's register numbers.
// (A step stays its number, here and below: it is the script's, which oracle/ and `make` write too; an enum would be one more table of the 43.)
fn stored(w: &mut [u16; 46], list: &mut [u16], code: u8, e: u8, v: u16) -> usize
    requires { 3 ≤ length list.old }
    ensures { result ≤ 1 }
{
    match code {
        1 => stores::write_faddr(w, list, 0, e),
        2 => stores::write_power(w, list, 0),
        3 => stores::write_index(w, list, 0, e),
        4 => stores::write(w, list, 0, csr0l_of(v)),
        5 => stores::flush_csr0h(w, list, 0),
        6 => stores::write(w, list, 0, txcsrl_of(v)),
        7 => stores::write(w, list, 0, rxcsrl_of(v)),
        14 => stores::write_intrusbe(w, list, 0),
        15 => stores::write_packet(w, list, 0, v),
        _ => 0,
    }
}

fn changed(w: &mut [u16; 46], list: &mut [u16], code: u8, e: u8, v: u16) -> usize
    requires { 3 ≤ length list.old }
    ensures { result ≤ 1 }
{
    let d = side(code);
    match code {
        8 | 9 => stores::write_iso(w, list, 0, d),
        10 | 11 => stores::write_maxp(w, list, 0, d, v),
        12 | 13 => stores::write_intre(w, list, 0, d, v),
        16 | 17 => stores::modify_intre(w, list, 0, d, e % 16),
        18 => stores::modify::<Csr0l>(w, list, 0, Csr0lSet::TxPktRdy),
        19 => stores::modify::<Csr0l>(w, list, 0, Csr0lSet::DataEnd),
        20 => stores::modify::<Csr0l>(w, list, 0, Csr0lSet::ServicedRxPktRdy),
        21 => stores::modify::<Csr0l>(w, list, 0, Csr0lSet::ServicedSetupEnd),
        22 => stores::modify::<Csr0l>(w, list, 0, Csr0lSet::ServicedBoth),
        23 => stores::modify::<Txcsrl>(w, list, 0, TxcsrlSet::TxPktRdy),
        24 => stores::modify::<Txcsrl>(w, list, 0, TxcsrlSet::FlushFifo),
        25 => stores::modify::<Txcsrl>(w, list, 0, TxcsrlSet::NoUnderRun),
        26 => stores::modify::<Rxcsrl>(w, list, 0, RxcsrlSet::NoRxPktRdy),
        27 => stores::modify::<Rxcsrl>(w, list, 0, RxcsrlSet::FlushFifo),
        28 => stores::modify::<Rxcsrl>(w, list, 0, RxcsrlSet::NoOverRun),
        _ => stored(w, list, code, e, v),
    }
}

// The bytes of the driver's packet go to the selected endpoint's area, and its store comes after. One that does not fit changes nothing.
fn put_packet(w: &[u16; 46], bytes: &[u8], fifo: &mut [u8])
    requires { 1664 ≤ length fifo.old }
{
    let e = w[regs::INDEX];
    let to = board::area(Board::Display, (e % 256) as u8, Direction::In);
    if bytes.len() <= to.size {
        fifo::put_bytes(fifo, to, bytes);
    }
}

// The host's arrives.
fn arrived(w: &mut [u16; 46], e: u8, bytes: &[u8], fifo: &mut [u8])
    requires { 1664 ≤ length fifo.old }
{
    let to = board::area(Board::Display, e, Direction::Out);
    if bytes.len() <= to.size {
        events::arrive(w, e % 16, bytes, to, fifo);
    }
}

fn packet(w: &mut [u16; 46], code: u8, e: u8, bytes: &[u8], fifo: &mut [u8])
    requires { 1664 ≤ length fifo.old }
{
    match code {
        15 => put_packet(w, bytes, fifo),
        29 => arrived(w, e, bytes, fifo),
        _ => {}
    }
}

// No event sets SentStall, so it is put up by hand.
fn put_stalled(w: &mut [u16; 46], e: u16, d: Direction) {
    let mut s = regs::side_at(w, e, d);
    s.stalled = true;
    regs::put_side(w, e, d, s);
}

// The other host events.
fn happened(w: &mut [u16; 46], code: u8, e: u8) {
    let d = side(code);
    match code {
        30 => events::collect(w, e % 16),
        32 => events::bus(w, BusEvent::Reset),
        33 => events::bus(w, BusEvent::Suspend),
        34 => events::bus(w, BusEvent::Resume),
        35 => events::setup_end(w),
        36 | 37 => events::miss(w, e, d),
        38 | 39 => put_stalled(w, u16::from(e), d),
        _ => {}
    }
}

// What an interrupt register gives.
fn word(w: &mut [u16; 46], code: u8) -> u16 {
    match code {
        40 | 41 => events::read_intr(w, side(code)),
        42 => events::read_intrusb(w),
        _ => 0,
    }
}

// The first bytes of the packet that waits at a side, at most v and at most eight.
fn taken(w: &[u16; 46], e: u8, d: Direction, v: u16, fifo: &[u8; 1664]) -> [u8; 8] {
    let mut out = [255u8; 8];
    let from = board::area(Board::Display, e, d);
    let k = usize::from(regs::waiting_len(w, e, d))
        .min(from.size)
        .min(usize::from(v))
        .min(8);
    fifo::take_bytes(fifo, from, k, &mut out[..k]);
    out
}

// Where any byte changes, or moves, so does this.
fn sum(code: u8, b: &[u8; 1664]) -> u32
    ensures { result < 65521 }
{
    match code {
        0 | 15 | 29..=31 => {}
        _ => return 0,
    }
    let mut c = 0;
    for x in b {
        c = (c * 31 + u32::from(*x)) % 65521;
    }
    c
}

// The first line of a step: its code and endpoint, a number that it read or the sum, and the bytes that it read.
fn put_first<W: Write>(
    to: &mut W,
    w: &[u16; 46],
    code: u8,
    e: u8,
    v: u16,
    word: u16,
    fifo: &[u8; 1664],
) -> io::Result<()> {
    let mut line = [0u8; 256];
    let number = u32::from(word) + sum(code, fifo);
    let n = match code {
        30 | 31 => {
            let out = taken(w, e, side(code), v, fifo);
            trace_report::counted_line(&mut line, code, e, number, &out)
        }
        _ => trace_report::value_line(&mut line, code, e, number),
    };
    to.write_all(&line[..n])
}

// The two lines of the detail report.
fn put_details<W: Write>(to: &mut W, r: Regs, list: &[u16; 384], n: usize) -> io::Result<()>
    requires { n ≤ 1 }
{
    let mut line = [0u8; 2048];
    let a = trace_details::stores_line(&mut line, list, n);
    to.write_all(&line[..a])?;
    let mut k = record_ops::fresh(Board::Display);
    k.regs = r;
    let b = trace_details::record_line(&mut line, k);
    to.write_all(&line[..b])
}

// A case begins with fresh registers.
fn begun(code: u8, r: Regs) -> Regs {
    if code == 0 {
        regs::fresh(Board::Display)
    } else {
        r
    }
}

// A step of the script, five bytes: the code; an endpoint, or an address; a number, low byte first; a packet's first byte.
fn act<W: Write>(
    to: &mut W,
    packets: &[u8; 768],
    step: &[u8; 5],
    r: Regs,
    list: &mut [u16; 384],
    fifo: &mut [u8; 1664],
) -> io::Result<Regs> {
    let [code, e, low, high, from] = *step;
    let v = u16::from_le_bytes([low, high]);
    let from = usize::from(from);
    let past = from + usize::from(v).min(512);
    let mut r = begun(code, r);
    packet(&mut r.words, code, e, &packets[from..past], fifo);
    let number = word(&mut r.words, code);
    put_first(to, &r.words, code, e, v, number, fifo)?;
    happened(&mut r.words, code, e);
    let n = changed(&mut r.words, list, code, e, v);
    put_details(to, r, list, n)?;
    Ok(r)
}

fn main(rt: HostRuntime) -> io::Result<()> {
    let mut script = [0u8; 4096];
    let n = input::read_full(&mut rt.stdin(), &mut script)?;
    let mut list = [0u16; 384];
    let mut fifo = [0u8; 1664];
    let mut r = regs::fresh(Board::Display);
    if let Some((packets, rest)) = script[..n].split_first_chunk::<768>() {
        let (steps, _) = rest.as_chunks::<5>();
        for step in steps {
            r = act(&mut rt.stdout(), packets, step, r, &mut list, &mut fifo)?;
        }
    }
    Ok(())
}
