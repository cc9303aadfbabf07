// Document 01's control registers: their bits by name (here), what a store does to one side of an endpoint and the number that it lists
// (specs/), and document 01's sentences about them as laws (proofs/). No function but what is derived: csr_ops has them.

#![tactic(auto)]

// One direction of an endpoint. In Rust's words In is TX and Out is RX.
// Endpoint 0's SendStall and SentStall stand in its transmit side. By default nothing is there.
#[derive(Clone, Copy, Default)]
pub struct Side {
    // TxPktRdy or RxPktRdy
    pub ready: bool,
    // UnderRun or OverRun
    pub missed: bool,
    // SendStall
    pub stall: bool,
    // SentStall
    pub stalled: bool,
    // bit 6 of TXCSRH or RXCSRH, all else of which reads 0
    pub iso: bool,
    pub maxp: u16,
    // the waiting packet's length
    pub len: u16,
}

// CSR0L, from bit 0. By default each bit of a control register is 0: the source's `write` starts from that.
#[derive(Clone, Copy, Default)]
pub struct Csr0l {
    pub rx_pkt_rdy: bool,
    pub tx_pkt_rdy: bool,
    pub sent_stall: bool,
    pub data_end: bool,
    pub setup_end: bool,
    pub send_stall: bool,
    pub serviced_rx_pkt_rdy: bool,
    pub serviced_setup_end: bool,
}

// TXCSRL, from bit 0.
#[derive(Clone, Copy, Default)]
pub struct Txcsrl {
    pub tx_pkt_rdy: bool,
    pub fifo_not_empty: bool,
    pub under_run: bool,
    pub flush_fifo: bool,
    pub send_stall: bool,
    pub sent_stall: bool,
    pub clr_data_tog: bool,
}

// RXCSRL, from bit 0.
#[derive(Clone, Copy, Default)]
pub struct Rxcsrl {
    pub rx_pkt_rdy: bool,
    pub fifo_full: bool,
    pub over_run: bool,
    pub data_error: bool,
    pub flush_fifo: bool,
    pub send_stall: bool,
    pub sent_stall: bool,
    pub clr_data_tog: bool,
}

// What the source's closures set in a `modify` of CSR0L. Cases and no closures: the definitions of each `modify` (store_rules Stores) are over them.
#[derive(Clone, Copy)]
pub enum Csr0lSet {
    TxPktRdy,
    DataEnd,
    ServicedRxPktRdy,
    ServicedSetupEnd,
    ServicedBoth,
}

// The same of TXCSRL: a bit set, or UnderRun put down.
#[derive(Clone, Copy)]
pub enum TxcsrlSet {
    TxPktRdy,
    FlushFifo,
    NoUnderRun,
}

// The same of RXCSRL: a bit set, or one put down.
#[derive(Clone, Copy)]
pub enum RxcsrlSet {
    NoRxPktRdy,
    FlushFifo,
    NoOverRun,
}
