// Stands for the board's own code around the driver.

// The first `stores` entries of the list, three numbers each, go to the chip's registers in their order; a packet's bytes come from FIFO memory.
pub fn carry_out(list: &[u16], stores: usize, fifo: &[u8]) {}

// A packet is there, whole.
pub fn received(ep: u8, packet: &[u8]) {}
