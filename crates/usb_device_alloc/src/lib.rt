// The call `alloc_ep` of the source's usb_device_impl/mod.rs: an endpoint by the source's alloc_endpoint.rs. No list is lent.

#![tactic(auto)]

ghost use Rattle.std.specs.Prelude.{◌≡◌};
ghost use Rattle.board.specs.Boards.{rows};
ghost use Rattle.endpoints.specs.Allocate.{allocate};
ghost use Rattle.endpoints.specs.Endpoints.{ask};
ghost use Rattle.call_rules.specs.Alloc.{alloc_left, alloc_ran, alloc_ep_call};

use board::{Board, Direction};
use call_rules::AllocRefusal;
use endpoints::{Ask, EndpointData, EndpointType};
use record::{Answered, Record, Refusal};

// The source's polling interval goes nowhere and is left out.
pub fn alloc_ep(
    k: Record,
    ep_dir: Direction,
    ep_addr: Option<u8>,
    ep_type: EndpointType,
    max_packet_size: u16,
) -> Answered<Result<u8, AllocRefusal>>
    ensures { result ≡ alloc_ep_call k (ask ep_type ep_dir max_packet_size) ep_addr }
{
    let ask = Ask {
        kind: ep_type,
        way: ep_dir,
        size: max_packet_size,
    };
    let mut e = k.endpoints;
    let answer = if record_ops::sound(k.regs.board, &k.regs.words, k.irq) {
        allocate(k.regs.board, &mut e, ep_addr, ask)
    } else {
        Err(AllocRefusal::Refused(Refusal::BadRecord))
    };
    Answered {
        record: Record { endpoints: e, ..k },
        answer,
    }
}

fn allocate(
    b: Board,
    e: &mut [EndpointData; 6],
    ep_addr: Option<u8>,
    ask: Ask,
) -> Result<u8, AllocRefusal>
    ensures { alloc_left result e.new ≡ alloc_ran (allocate (rows b) e.old ask ep_addr) }
{
    let n = alloc_endpoint::alloc_endpoint(b, e, ep_addr, ask)?;
    Ok(n)
}
