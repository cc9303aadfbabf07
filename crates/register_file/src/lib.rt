// The register file as a list of numbers: the places, a side of an endpoint, what is read, what stores to CSR0L and CSR0H do, reply 16's
// register part (specs/), and the laws of all that (proofs/). No function: regs has them.

#![tactic(auto)]

use board::Board;

// (One list of numbers and no array of sides: the definitions are over it. docs/DECISIONS.md, 'A register file'.)
#[derive(Clone, Copy)]
pub struct Regs {
    pub words: [u16; 46],
    pub board: Board,
}
