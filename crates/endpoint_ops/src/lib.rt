// One endpoint (of the source's alloc_endpoint.rs, its fixed half): what is recorded of it, whether it may be given, and what it records then.

#![tactic(auto)]

ghost use Rattle.std.specs.Prelude.{◌≡◌};
ghost use Rattle.board.specs.Table.{row_at};
ghost use Rattle.board.specs.Boards.{rows};
ghost use Rattle.endpoints.specs.Endpoints.{used_in, ask, granted};
ghost use Rattle.endpoints.specs.Check.{in_use, checked, passes};

use board::{Board, Direction};
use endpoints::{Ask, EndpointAllocError, EndpointData, EndpointType};

// The order of the tests is the source's: size, direction, use.
pub fn check_endpoint(
    board: Board,
    ep: EndpointData,
    index: u8,
    ask: Ask,
) -> Result<(), EndpointAllocError>
    ensures { result ≡ checked (row_at (rows board) index) ep ask }
{
    let row = board::endpoint(board, index);
    if ask.size > row.size {
        return Err(EndpointAllocError::MaxPacketSizeBiggerThanEpFifoSize);
    }
    if !board::row_has(row, ask.way) {
        return Err(EndpointAllocError::EpDirNotSupported);
    }
    if is_in_use(ep, ask.kind, ask.way) {
        return Err(EndpointAllocError::EpUsed);
    }
    Ok(())
}

// The last two tests of the source's `check_endpoint`, which give one reply: bulk on a used endpoint; used, with another type or that same
// direction.
fn is_in_use(ep: EndpointData, alloc_ep_type: EndpointType, direction: Direction) -> bool
    ensures { result ≡ in_use ep alloc_ep_type direction }
{
    let used = ep.used_rx | ep.used_tx;
    let bulk = alloc_ep_type == EndpointType::Bulk;
    let other = ep.ep_conf.ep_type != alloc_ep_type;
    (bulk & used) | (used & (other | used_dir(ep, direction)))
}

// (The source's two fields, as in `marked`.)
fn used_dir(ep: EndpointData, direction: Direction) -> bool
    ensures { result ≡ used_in ep direction }
{
    match direction {
        Direction::Out => ep.used_rx,
        Direction::In => ep.used_tx,
    }
}

// The endpoint with the asked type, and the asked direction's size and mark.
pub fn marked(ep: EndpointData, ask: Ask) -> EndpointData
    ensures { result ≡ granted ep ask }
{
    let mut next = ep;
    next.ep_conf.ep_type = ask.kind;
    match ask.way {
        Direction::Out => {
            next.ep_conf.rx_max_packet_size = ask.size;
            next.used_rx = true;
        }
        Direction::In => {
            next.ep_conf.tx_max_packet_size = ask.size;
            next.used_tx = true;
        }
    }
    next
}
