// The arguments of an entry of a trace: numbers in their ranges, what they mean, and a packet, which stays where it stands in the trace.

#![tactic(auto)]

ghost use Rattle.std.specs.Prelude.{◌≡◌, ◌≤◌, length, IfSome};
ghost use Rattle.endpoints.specs.Endpoints.{type_of};
ghost use Rattle.trace_rules.specs.Arguments.{in_range, arg_at, two_at, direction_of, wanted_of, bus_of, flag_of};
ghost use Rattle.trace_rules.specs.Packets.{held_in, packet_at};

use board::Direction;
use endpoints::EndpointType;
use event_rules::BusEvent;
use trace_reader::TraceReader;
use trace_rules::Packet;

#[tactic(auto, unfolding(trace_rules::specs::Arguments::arg_at))]
pub fn arg_at(s: &[u8], at: usize, most: u16) -> Option<(u16, usize)>
    ensures value { result ≡ arg_at s.now at most }
    ensures within { IfSome result (λ r. (r.0 ≤ most) × (r.1 ≤ length s.now)) }
{
    in_range(TraceReader::at(s, at).next(), most)
}

fn in_range(n: Option<(u16, usize)>, most: u16) -> Option<(u16, usize)>
    ensures { result ≡ in_range most n }
{
    n.filter(|(a, _)| *a <= most)
}

// One reader goes from the first number to the second.
#[tactic(auto, unfolding(trace_rules::specs::Arguments::two_at, trace_rules::specs::Arguments::arg_at, trace_rules::specs::Groups::place_after))]
pub fn two_at(s: &[u8], at: usize, m: u16, n: u16) -> Option<(u16, u16, usize)>
    ensures value { result ≡ two_at s.now at m n }
    ensures within { IfSome result (λ r. (r.0 ≤ m) × (r.1 ≤ n) × (r.2 ≤ length s.now)) }
{
    let mut r = TraceReader::at(s, at);
    let (a, _) = in_range(r.next(), m)?;
    let (b, past) = in_range(r.next(), n)?;
    Some((a, b, past))
}

// What a number stands for in a trace. Functions and no `From`: an impl would have to stand with the types, in crates that know nothing of traces.
pub fn direction_of(n: u16) -> Direction
    ensures { result ≡ direction_of n }
{
    if n == 0 {
        Direction::Out
    } else {
        Direction::In
    }
}

pub fn flag_of(n: u16) -> bool
    ensures { result ≡ flag_of n }
{
    n == 1
}

pub fn wanted_of(n: u16) -> Option<u8>
    requires { n ≤ 256 }
    ensures { result ≡ wanted_of n }
{
    if n == 0 {
        return None;
    }
    Some((n - 1) as u8)
}

pub fn type_of(n: u32) -> EndpointType
    ensures { result ≡ type_of n }
{
    match n {
        0 => EndpointType::Control,
        1 => EndpointType::Isochronous,
        2 => EndpointType::Bulk,
        _ => EndpointType::Interrupt,
    }
}

pub fn bus_of(n: u16) -> BusEvent
    ensures { result ≡ bus_of n }
{
    match n {
        0 => BusEvent::Reset,
        1 => BusEvent::Suspend,
        _ => BusEvent::Resume,
    }
}

// Endpoint, length, bytes. Form comes before meaning: a packet that is cut is bad whatever its endpoint.
#[tactic(auto, unfolding(trace_rules::specs::Packets::packet_at))]
pub fn packet_at(s: &[u8], at: usize) -> Option<(Packet, usize)>
    ensures { result ≡ packet_at s.now at }
{
    let (endpoint, n, start) = two_at(s, at, 255, 65535)?;
    held_in(s, endpoint as u8, usize::from(n), start)
}

// A packet of n bytes from start on, with the place after it.
#[tactic(auto, unfolding(trace_rules::specs::Packets::held_in))]
fn held_in(s: &[u8], endpoint: u8, n: usize, start: usize) -> Option<(Packet, usize)>
    requires { start ≤ length s.now }
    ensures { result ≡ held_in s.now endpoint n start }
{
    if s.len() - start < n {
        return None;
    }
    let packet = Packet {
        endpoint,
        start,
        len: n,
    };
    Some((packet, start + n))
}
