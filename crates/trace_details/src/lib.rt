// The two lines that stand under an entry's line when the detail is asked for: the stores that it listed, and the record after it as
// numbers. They are for comparing with the original, whose own detail report has the same two lines.

#![tactic(auto)]

ghost use Rattle.std.specs.Prelude.{◌≡◌, ◌++◌, ◌+◌, ◌*◌, ◌≤◌, length};
ghost use Rattle.trace_rules.specs.Text.{Wrote, fields};
ghost use Rattle.detail_rules.specs.DetailLines.{store, stores, stores_line, record_line};
ghost use Rattle.detail_rules.specs.DetailNumbers.{of_chip, shown_at, lengths_at, of_data, of_endpoint, of_endpoints, of_flags};

use board::Direction;
use control_state::ControlState;
use csr::{Csr0l, Rxcsrl, Txcsrl};
use endpoints::EndpointData;
use record::{Flags, Record};
use stores::Control;

// (No `Display`, for the reason at `put_decimal`. The list and its count: `stores_line` of detail_rules is over both.)
pub fn stores_line(out: &mut [u8], list: &[u16], n: usize) -> usize
    requires { (3 * n ≤ length list.now) × (100 + 18 * n ≤ length out.old) }
    ensures wrote { Wrote out.old out.new 0 result (stores_line list.now n) }
    ensures upper_bound { result ≤ 100 + 18 * n }
{
    let a = trace_text::put_text(out, 0, b"  stores");
    let b = put_stores(out, a, list, n);
    trace_text::put_text(out, b, b"\n")
}

// The first n stores of a list, three numbers a store.
fn put_stores(out: &mut [u8], at: usize, list: &[u16], n: usize) -> usize
    requires { (3 * n ≤ length list.now) × (at + 33 + 18 * n ≤ length out.old) }
    ensures wrote { Wrote out.old out.new at result (stores list.now n) }
    ensures upper_bound { result ≤ at + 18 * n }
{
    let mut m = at;
    for i in 0..n {
        m = put_store(out, m, list[3 * i], list[3 * i + 1], list[3 * i + 2]);
    }
    m
}

// A store, `register,endpoint,value`, with a blank before it.
fn put_store(out: &mut [u8], at: usize, register: u16, endpoint: u16, value: u16) -> usize
    requires { at + 33 ≤ length out.old }
    ensures wrote { Wrote out.old out.new at result (store register endpoint value) }
    ensures upper_bound { result ≤ at + 18 }
{
    let a = trace_text::put_field(out, at, u32::from(register));
    let b = trace_text::put_text(out, a, b",");
    let c = trace_text::put_decimal(out, b, u32::from(endpoint));
    let d = trace_text::put_text(out, c, b",");
    trace_text::put_decimal(out, d, u32::from(value))
}

// The record's 96 numbers.
pub fn record_line(out: &mut [u8], k: Record) -> usize
    requires { 1100 ≤ length out.old }
    ensures wrote { Wrote out.old out.new 0 result (record_line k) }
    ensures upper_bound { result ≤ 1100 }
{
    let r = k.regs;
    let w = r.words;
    let endpoints = k.endpoints;
    let a = trace_text::put_text(out, 0, b"  record");
    let chip = of_chip(&w);
    let b = trace_text::put_fields(out, a, &chip);
    let c = put_endpoints(out, b, &w, endpoints);
    let flags = of_flags(k.control_state, k.irq);
    let d = trace_text::put_fields(out, c, &flags);
    trace_text::put_text(out, d, b"\n")
}

// The registers of the chip as a whole, and endpoint 0's own.
fn of_chip(w: &[u16; 46]) -> [u16; 10]
    ensures { result ≡ of_chip w.now }
{
    [
        w[regs::FADDR],
        w[regs::POWER],
        w[regs::INDEX],
        w[regs::INTRTXE],
        w[regs::INTRRXE],
        w[regs::INTRUSBE],
        w[regs::INTRUSB],
        w[regs::INTRTX],
        w[regs::INTRRX],
        Csr0l::read(w).number(),
    ]
}

fn put_endpoints(out: &mut [u8], at: usize, w: &[u16; 46], endpoints: [EndpointData; 6]) -> usize
    requires { at + 858 ≤ length out.old }
    ensures wrote { Wrote out.old out.new at result (fields (of_endpoints w.now endpoints 6)) }
    ensures upper_bound { result ≤ at + 858 }
{
    let mut m = at;
    for e in 0..6 {
        m = put_endpoint(out, m, w, endpoints[usize::from(e)], e);
    }
    m
}

// An endpoint's thirteen numbers.
fn put_endpoint(out: &mut [u8], at: usize, w: &[u16; 46], d: EndpointData, e: u16) -> usize
    requires { at + 143 ≤ length out.old }
    ensures wrote { Wrote out.old out.new at result (fields (of_endpoint w.now d e)) }
    ensures upper_bound { result ≤ at + 143 }
{
    let registers = shown_at(w, e);
    let a = trace_text::put_fields(out, at, &registers);
    let rest = rest_at(w, e, d);
    trace_text::put_fields(out, a, &rest)
}

// An endpoint's own registers, as they read with it selected. Endpoint 0 has none of them: its bits stand in CSR0L.
fn shown_at(w: &[u16; 46], e: u16) -> [u16; 6]
    ensures { result ≡ shown_at w.now e }
{
    if e == 0 {
        return [0; 6];
    }
    let tx = regs::side_at(w, e, Direction::In);
    let rx = regs::side_at(w, e, Direction::Out);
    [
        Txcsrl::of(tx).number(),
        Rxcsrl::of(rx).number(),
        csr_ops::weight(tx.iso, 64),
        csr_ops::weight(rx.iso, 64),
        tx.maxp,
        rx.maxp,
    ]
}

// The lengths that wait at an endpoint, and what allocation recorded of it.
#[tactic(auto, unfolding(detail_rules::specs::DetailNumbers::lengths_at, detail_rules::specs::DetailNumbers::of_data))]
fn rest_at(w: &[u16; 46], e: u16, d: EndpointData) -> [u16; 7]
    ensures { result ≡ lengths_at w.now e ++ of_data d }
{
    let tx = regs::side_at(w, e, Direction::In);
    let rx = regs::side_at(w, e, Direction::Out);
    let conf = d.ep_conf;
    let kind = conf.ep_type;
    [
        tx.len,
        rx.len,
        u16::from(u8::from(kind)),
        conf.tx_max_packet_size,
        conf.rx_max_packet_size,
        csr_ops::weight(d.used_tx, 1),
        csr_ops::weight(d.used_rx, 1),
    ]
}

// The control state and the interrupt flags.
#[tactic(auto, unfolding(detail_rules::specs::DetailNumbers::of_flags))]
fn of_flags(c: ControlState, f: Flags) -> [u32; 8]
    ensures { result ≡ of_flags c f }
{
    let state = c.state;
    [
        u32::from(u8::from(state)),
        c.tx_len,
        u32::from(csr_ops::weight(f.reset, 1)),
        u32::from(csr_ops::weight(f.suspend, 1)),
        u32::from(csr_ops::weight(f.resume, 1)),
        u32::from(csr_ops::weight(f.ep0, 1)),
        u32::from(f.ep_tx),
        u32::from(f.ep_rx),
    ]
}
