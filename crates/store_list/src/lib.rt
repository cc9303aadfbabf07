// The lent list of stores: three numbers a store, and document 01's numbers of the registers.

#![tactic(auto)]

ghost use Rattle.std.specs.Prelude.{◌≡◌, ◌+◌, ◌*◌, ◌≤◌, length};
ghost use Rattle.store_list.specs.Stores.{listed, csrh, maxp, intre};

use board::Direction;

// Document 01's register numbers.
pub const FADDR: u16 = 1;

pub const POWER: u16 = 2;

pub const INDEX: u16 = 3;

pub const CSR0L: u16 = 4;

pub const CSR0H: u16 = 5;

pub const TXCSRL: u16 = 6;

pub const RXCSRL: u16 = 7;

const TXCSRH: u16 = 8;

const RXCSRH: u16 = 9;

const TXMAXP: u16 = 10;

const RXMAXP: u16 = 11;

const INTRTXE: u16 = 12;

const INTRRXE: u16 = 13;

pub const INTRUSBE: u16 = 14;

pub const FIFO: u16 = 15;

// Three numbers a store. The room is asked of the caller and not tested here.
pub fn put(list: &mut [u16], n: usize, register: u16, endpoint: u16, value: u16) -> usize
    requires { n * 3 + 3 ≤ length list.old }
    ensures { (result ≡ n + 1) × (list.new ≡ listed list.old n register endpoint value) }
{
    let at = n * 3;
    list[at] = register;
    list[at + 1] = endpoint;
    list[at + 2] = value;
    n + 1
}

// The registers that come in pairs, by direction: each function is a row of that table, and no plainer with its two numbers as arguments.
pub fn csrh_of(d: Direction) -> u16
    ensures { result ≡ csrh d }
{
    match d {
        Direction::Out => RXCSRH,
        Direction::In => TXCSRH,
    }
}

pub fn maxp_of(d: Direction) -> u16
    ensures { result ≡ maxp d }
{
    match d {
        Direction::Out => RXMAXP,
        Direction::In => TXMAXP,
    }
}

pub fn intre_of(d: Direction) -> u16
    ensures { result ≡ intre d }
{
    match d {
        Direction::Out => INTRRXE,
        Direction::In => INTRTXE,
    }
}
