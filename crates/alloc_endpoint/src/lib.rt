// Allocation of endpoints (the source's alloc_endpoint.rs, its fixed half), over a board's table.

#![tactic(auto)]

ghost use Rattle.std.specs.Prelude.{◌≡◌, ◌<◌, Some, None};
ghost use Rattle.board.specs.Boards.{rows};
ghost use Rattle.endpoints.specs.Check.{given};
ghost use Rattle.endpoints.specs.Allocate.{check_at, answer_to, allocated, allocate};

use board::Board;
use endpoints::{Ask, EndpointAllocError, EndpointData};

// Nothing changes where no endpoint is given.
pub fn alloc_endpoint(
    board: Board,
    endpoints: &mut [EndpointData; 6],
    ep_index: Option<u8>,
    ask: Ask,
) -> Result<u8, EndpointAllocError>
    ensures { allocated result endpoints.new ≡ allocate (rows board) endpoints.old ask ep_index }
{
    let index = choose(board, endpoints, ep_index, ask)?;
    give(endpoints, index, ask);
    Ok(index)
}

// Which endpoint is given, or why none is.
// (Board and endpoints as they are: the array is the record's own, and a method would need a type around it.)
fn choose(
    board: Board,
    endpoints: &[EndpointData; 6],
    ep_index: Option<u8>,
    ask: Ask,
) -> Result<u8, EndpointAllocError>
    ensures { result ≡ answer_to (rows board) endpoints.now ask ep_index }
{
    match ep_index {
        Some(index) => alloc_wanted(board, endpoints, index, ask),
        None => alloc_any(board, endpoints, ask),
    }
}

// A number is wanted: 0 is never checked.
fn alloc_wanted(
    board: Board,
    endpoints: &[EndpointData; 6],
    index: u8,
    ask: Ask,
) -> Result<u8, EndpointAllocError>
    ensures { result ≡ answer_to (rows board) endpoints.now ask (Some index) }
{
    if index >= board::endpoints(board) {
        return Err(EndpointAllocError::InvalidEndpoint);
    }
    if index == 0 {
        return Ok(0);
    }
    check_at(board, endpoints, index, ask)?;
    Ok(index)
}

// The check of the endpoint at a number.
fn check_at(
    board: Board,
    endpoints: &[EndpointData; 6],
    index: u8,
    ask: Ask,
) -> Result<(), EndpointAllocError>
    requires { index < 6 }
    ensures { result ≡ check_at (rows board) endpoints.now ask index }
{
    endpoint_ops::check_endpoint(board, endpoints[index as usize], index, ask)
}

// No number is wanted: the lowest that passes. Endpoint 0 is reserved for the control pipe.
fn alloc_any(
    board: Board,
    endpoints: &[EndpointData; 6],
    ask: Ask,
) -> Result<u8, EndpointAllocError>
    ensures { result ≡ answer_to (rows board) endpoints.now ask None }
{
    let count = board::endpoints(board);
    for i in 1..count {
        if check_at(board, endpoints, i, ask).is_ok() {
            return Ok(i);
        }
    }
    Err(EndpointAllocError::EndpointOverflow)
}

fn give(endpoints: &mut [EndpointData; 6], index: u8, ask: Ask)
    requires { index < 6 }
    ensures { endpoints.new ≡ given endpoints.old ask index }
{
    let i = index as usize;
    endpoints[i] = endpoint_ops::marked(endpoints[i], ask);
}
