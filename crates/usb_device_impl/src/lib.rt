// The simple calls of the source's usb_device_impl/mod.rs: the bus and the address; and what every call begins with.
// A call takes the record by value, any numbers and any lent list, tests what document 01 refuses before anything changes, and gives back
// its answer, the record and how many stores stand in the list. Its result is begun with the record, whose parts are lent to what runs below
// it and changed in place; or what changes, the registers or the endpoints, is taken out of the record and lent, and the result is made at the end, where that is less (bench/RESULTS.md).

#![tactic(auto, unfolding(record::specs::Record::record_sound, record::specs::Record::endpoints_of))]

ghost use Rattle.std.specs.Prelude.{◌≡◌, ◌≤◌, leb, ltb, false, Ok};
ghost use Rattle.record.specs.Record.{record_sound, admission_by, list_need};
ghost use Rattle.call_rules.specs.Calls.{beyond, address_entry, bus_init_call, enable_call, address_call, idled, force_reset_call};

use control_state::{ControlState, ControlStateEnum};
use record::{Called, Record, Refusal, Reply};

// The source's constant: the address is set before the status stage of its request.
pub const QUIRK_SET_ADDRESS_BEFORE_STATUS: bool = true;

// The tests that come first in a call that lends a list of so many numbers: 15, 16, 8.
pub fn admit(numbers: usize, k: &Record, beyond: bool) -> Reply<()>
    ensures { (result ≡ admission_by (ltb numbers list_need) (record_sound k.now) beyond) × (result ≡ Ok tt → list_need ≤ numbers) }
{
    record_ops::admit(
        numbers < record_ops::LIST,
        k.regs.board,
        &k.regs.words,
        k.irq,
        beyond,
    )
}

// The same of a call at an endpoint.
pub fn admit_at(numbers: usize, k: &Record, ep: u8) -> Reply<()>
    ensures { (result ≡ admission_by (ltb numbers list_need) (record_sound k.now) (beyond k.now ep)) × (result ≡ Ok tt → list_need ≤ numbers) }
{
    admit(numbers, k, record_ops::endpoints(k.regs.board) <= ep)
}

pub fn bus_init(k: Record, list: &mut [u16]) -> Called<Reply<()>>
    ensures { record { call = result; list = list.new } ≡ bus_init_call k list.old }
{
    let mut o = Called {
        record: k,
        stores: 0,
        answer: Ok(()),
    };
    match admit(list.len(), &k, false) {
        Ok(()) => o.stores = common_impl::bus_init(&mut o.record.regs.words, list, 0),
        Err(x) => o.answer = Err(x),
    }
    o
}

pub fn enable(k: Record, list: &mut [u16]) -> Called<Reply<()>>
    ensures { record { call = result; list = list.new } ≡ enable_call k list.old }
{
    let mut o = Called {
        record: k,
        stores: 0,
        answer: Ok(()),
    };
    match admit(list.len(), &k, false) {
        Ok(()) => o.stores = stores::write_faddr(&mut o.record.regs.words, list, 0, 0),
        Err(x) => o.answer = Err(x),
    }
    o
}

pub fn idle(c: ControlState) -> ControlState
    ensures { result ≡ idled c }
{
    c.set_state(ControlStateEnum::Idle).reset_tx_len()
}

pub fn set_device_address(k: Record, addr: u8, list: &mut [u16]) -> Called<Reply<()>>
    ensures { record { call = result; list = list.new } ≡ address_call k addr list.old }
{
    let mut o = Called {
        record: k,
        stores: 0,
        answer: Ok(()),
    };
    match admit_address(list.len(), &k, addr) {
        Ok(()) => o.stores = stores::write_faddr(&mut o.record.regs.words, list, 0, addr),
        Err(x) => o.answer = Err(x),
    }
    o
}

// The source takes any address; document 01 refuses one that the register's seven bits do not hold.
fn admit_address(numbers: usize, k: &Record, addr: u8) -> Reply<()>
    ensures { (result ≡ address_entry (admission_by (ltb numbers list_need) (record_sound k.now) false) (leb addr 127)) × (result ≡ Ok tt → list_need ≤ numbers) }
{
    admit(numbers, k, false)?;
    if addr <= 127 {
        return Ok(());
    }
    Err(Refusal::BadAddress)
}

// The trait's own: the chip can't do it.
pub fn force_reset() -> Reply<()>
    ensures { result ≡ force_reset_call }
{
    Err(Refusal::Unsupported)
}
