// The simple calls of the source's usb_device_impl/mod.rs, `alloc_ep`, `reset`, the stalls and `on_interrupt`: what each gives back and leaves
// (specs/), and document 01's rows and sentences about them as laws (proofs/). No function but a conversion: usb_device_impl and the
// crates named after the calls have them.

#![tactic(auto)]

ghost use Rattle.std.specs.Prelude.{◌≡◌};
ghost use Rattle.call_rules.specs.declared.AllocRefusal.TheVariants.{NotGiven};

use endpoints::EndpointAllocError;
use record::Refusal;

// Why `alloc_ep` gives no endpoint: the source's own error, before the trait's takes its place, or a refusal that every call has.
#[derive(Clone, Copy, Debug, PartialEq, Eq)]
pub enum AllocRefusal {
    NotGiven(EndpointAllocError),
    Refused(Refusal),
}

impl From<EndpointAllocError> for AllocRefusal {
    ghost from_gives = { λ x r. r ≡ NotGiven x };

    fn from(x: EndpointAllocError) -> AllocRefusal {
        AllocRefusal::NotGiven(x)
    }
}

// What the three reads find: `intrusb`, `intrtx`, `intrrx`.
#[derive(Clone, Copy)]
pub struct Snapshot {
    pub usb: u16,
    pub tx: u16,
    pub rx: u16,
}
