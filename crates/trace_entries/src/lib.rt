// The entries of an event trace: a code, its arguments, each in its range (document 01, 'Event trace').
// Every number goes through `TraceReader::next`, the two of a pair through one reader. A packet stays in the trace: an entry holds its start and its length.

#![tactic(auto)]

ghost use Rattle.std.specs.Prelude.{◌≡◌, Some, None, MatchOption};
ghost use Rattle.trace_rules.specs.Arguments.{arg_at};
ghost use Rattle.trace_rules.specs.Packets.{packet_at};
ghost use Rattle.trace_rules.specs.Entries.{allocate_at, read_at, stall_at, is_stalled_at, bus_at, code_at, entry_at, code_of};

use trace_reader::TraceReader;
use trace_rules::{Entry, Packet, Parsed};

// What stands at a place of a trace.
#[tactic(auto, unfolding(trace_rules::specs::Entries::entry_at))]
pub fn entry_at(trace: &[u8], at: usize) -> Parsed
    ensures { result ≡ entry_at trace.now at }
{
    if trace.len() <= at {
        return Parsed::End;
    }
    let Some((code, past)) = TraceReader::at(trace, at).next() else {
        return Parsed::Bad;
    };
    match code_at(trace, code, past) {
        Some((e, next)) => Parsed::Found(e, next),
        None => Parsed::Bad,
    }
}

// The entry with this code whose arguments begin at a place, with the place after them.
#[tactic(auto, unfolding(trace_rules::specs::Entries::code_at))]
fn code_at(s: &[u8], code: u16, at: usize) -> Option<(Entry, usize)>
    ensures { result ≡ code_at s.now code at }
{
    match code {
        1 => allocate_at(s, at),
        2 => Some((Entry::Init, at)),
        3 => Some((Entry::Reset, at)),
        4 => one_at(s, at, Entry::Address),
        5 => with_packet(s, at, Entry::Write),
        6 => read_at(s, at),
        7 => stall_at(s, at),
        8 => is_stalled_at(s, at),
        9 => Some((Entry::Poll, at)),
        10 => Some((Entry::Interrupt, at)),
        11 => Some((Entry::Enable, at)),
        12 => with_packet(s, at, Entry::Arrival),
        13 => one_at(s, at, Entry::Collect),
        14 => bus_at(s, at),
        15 => Some((Entry::SetupEnd, at)),
        16 => one_at(s, at, Entry::Underrun),
        17 => one_at(s, at, Entry::Overrun),
        _ => None,
    }
}

#[tactic(auto, unfolding(trace_rules::specs::Entries::allocate_at))]
fn allocate_at(s: &[u8], at: usize) -> Option<(Entry, usize)>
    ensures { result ≡ allocate_at s.now at }
{
    let (d, w, mid) = trace_arguments::two_at(s, at, 1, 256)?;
    let (t, n, past) = trace_arguments::two_at(s, mid, 3, 65535)?;
    let direction = trace_arguments::direction_of(d);
    let wanted = trace_arguments::wanted_of(w);
    let kind = trace_arguments::type_of(u32::from(t));
    Some((Entry::Allocate(direction, wanted, kind, n), past))
}

// An entry with one argument, an address or an endpoint.
fn one_at<F: FnOnce(u8) -> Entry>(s: &[u8], at: usize, entry: F) -> Option<(Entry, usize)>
    requires { F.IsAlwaysCallable entry }
    ensures { MatchOption (arg_at s.now at 255) (result ≡ None) (λ r. (e : _) × F.post entry r.0 e × (result ≡ Some (e, r.1))) }
{
    let (a, past) = trace_arguments::arg_at(s, at, 255)?;
    Some((entry(a as u8), past))
}

// An entry with a packet.
fn with_packet<F: FnOnce(Packet) -> Entry>(s: &[u8], at: usize, entry: F) -> Option<(Entry, usize)>
    requires { F.IsAlwaysCallable entry }
    ensures { MatchOption (packet_at s.now at) (result ≡ None) (λ r. (e : _) × F.post entry r.0 e × (result ≡ Some (e, r.1))) }
{
    let (p, past) = trace_arguments::packet_at(s, at)?;
    Some((entry(p), past))
}

#[tactic(auto, unfolding(trace_rules::specs::Entries::read_at))]
fn read_at(s: &[u8], at: usize) -> Option<(Entry, usize)>
    ensures { result ≡ read_at s.now at }
{
    let (e, n, past) = trace_arguments::two_at(s, at, 255, 512)?;
    Some((Entry::Read(e as u8, n), past))
}

#[tactic(auto, unfolding(trace_rules::specs::Entries::stall_at))]
fn stall_at(s: &[u8], at: usize) -> Option<(Entry, usize)>
    ensures { result ≡ stall_at s.now at }
{
    let (e, d, mid) = trace_arguments::two_at(s, at, 255, 1)?;
    let (a, past) = trace_arguments::arg_at(s, mid, 1)?;
    let direction = trace_arguments::direction_of(d);
    Some((
        Entry::Stall(e as u8, direction, trace_arguments::flag_of(a)),
        past,
    ))
}

#[tactic(auto, unfolding(trace_rules::specs::Entries::is_stalled_at))]
fn is_stalled_at(s: &[u8], at: usize) -> Option<(Entry, usize)>
    ensures { result ≡ is_stalled_at s.now at }
{
    let (e, d, past) = trace_arguments::two_at(s, at, 255, 1)?;
    Some((
        Entry::IsStalled(e as u8, trace_arguments::direction_of(d)),
        past,
    ))
}

#[tactic(auto, unfolding(trace_rules::specs::Entries::bus_at))]
fn bus_at(s: &[u8], at: usize) -> Option<(Entry, usize)>
    ensures { result ≡ bus_at s.now at }
{
    let (a, past) = trace_arguments::arg_at(s, at, 2)?;
    Some((Entry::Bus(trace_arguments::bus_of(a)), past))
}

// Document 01's code of an entry, which its line begins with. (A case that holds values has no number that `as` could give.)
pub fn code_of(e: Entry) -> u8
    ensures { result ≡ code_of e }
{
    match e {
        Entry::Allocate(_, _, _, _) => 1,
        Entry::Init => 2,
        Entry::Reset => 3,
        Entry::Address(_) => 4,
        Entry::Write(_) => 5,
        Entry::Read(_, _) => 6,
        Entry::Stall(_, _, _) => 7,
        Entry::IsStalled(_, _) => 8,
        Entry::Poll => 9,
        Entry::Interrupt => 10,
        Entry::Enable => 11,
        Entry::Arrival(_) => 12,
        Entry::Collect(_) => 13,
        Entry::Bus(_) => 14,
        Entry::SetupEnd => 15,
        Entry::Underrun(_) => 16,
        Entry::Overrun(_) => 17,
    }
}
