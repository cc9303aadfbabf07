// Numbers of an event trace, and the reader that keeps the place (document 01, 'Event trace').
// Whatever reads a number of a trace reads it by the reader's `next`: there is no second reader.

#![tactic(auto)]

ghost use Rattle.std.specs.Prelude.{◌≡◌};
ghost use Rattle.trace_rules.specs.Groups.{number_at, place_after};

// A number with the place after it, or none: cut short, not in the shortest form, or over 65,535.
// Seven bits a group, low group first, the high bit set on all but the last. A last group of 0 could be left out, and a third one
// over 3 makes more than 65,535.
#[tactic(auto, unfolding(trace_rules::specs::Groups::number_at, trace_rules::specs::Groups::first, trace_rules::specs::Groups::second))]
fn number_at(s: &[u8], at: usize) -> Option<(u16, usize)>
    ensures { result ≡ number_at s.now at }
{
    let a = u16::from(*s.get(at)?);
    let i = at + 1;
    if a < 128 {
        return Some((a, i));
    }
    let b = u16::from(*s.get(i)?);
    let j = i + 1;
    if b == 0 {
        return None;
    }
    if b < 128 {
        return Some((a - 128 + b * 128, j));
    }
    let c = u16::from(*s.get(j)?);
    if c == 0 || 3 < c {
        return None;
    }
    Some((a - 128 + (b - 128) * 128 + c * 16384, j + 1))
}

// Document 01: "A reader over the lent bytes keeps the place".
#[derive(Clone, Copy)]
pub struct TraceReader<'a> {
    pub src: &'a [u8],
    pub at: usize,
}

impl<'a> TraceReader<'a> {
    pub fn at(src: &'a [u8], at: usize) -> TraceReader<'a>
        ensures { (result.src ≡ src.entry) × (result.at ≡ at) }
    {
        TraceReader { src, at }
    }

    // The number at the reader's place, with the place after it, where the reader is then; where there is none it stays.
    #[tactic(auto, unfolding(trace_rules::specs::Groups::place_after))]
    pub fn next(&mut self) -> Option<(u16, usize)>
        ensures number { result ≡ number_at self.old.src.now self.old.at }
        ensures moved { self.new.at ≡ place_after self.old.src.now self.old.at }
        ensures kept { self.new.src ≡ self.old.src }
    {
        let (n, past) = number_at(self.src, self.at)?;
        self.at = past;
        Some((n, past))
    }
}
