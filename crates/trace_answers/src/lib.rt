// The line of an entry that was carried out: its code, and the reply and values of its answer (document 01, 'Event trace').
// A refused entry shows code and reply only. Each function gives the length of its line, which stands at the front of the lent buffer.

#![tactic(auto)]

ghost use Rattle.std.specs.Prelude.{ℕ, List, [], ◌∷◌, ◌+◌, ◌*◌, ◌≤◌, ◌<◌, ◌^◌, length, take, drop};
ghost use Rattle.record.specs.Record.{refusal_number, reply_number};
ghost use Rattle.call_rules.specs.Alloc.{alloc_number, alloc_values};
ghost use Rattle.call_rules.specs.Stall.{stalled_number, stalled_values};
ghost use Rattle.transfer_rules.specs.WriteZero.{write_number, write_values};
ghost use Rattle.transfer_rules.specs.ReadZero.{read_number, read_values};
ghost use Rattle.round_rules.specs.Poll.{poll_number, poll_values};
ghost use Rattle.host_rules.specs.Host.{collect_number, collect_values, InBuffer};
ghost use Rattle.report_rules.specs.Shown.{Shows, Gives, WriteFits, ReadFits};

use board::Span;
use call_rules::AllocRefusal;
use record::{Answered, Called, Refusal, Reply};
use report_rules::Acted;
use round_rules::PollResult;

// An answer whose line needs nothing more: the number of its reply, and the values behind it.
pub trait Shown: Sized {
    ghost number: { Self → ℕ };

    ghost values: { Self → List ℕ };

    fn show(self, line: &mut [u8], code: u8) -> usize
        requires { 100 ≤ length line.old }
        ensures { Shows line.old line.new result code (number self) (values self) };
}

pub fn called<A: Shown>(line: &mut [u8], code: u8, o: Called<A>) -> Acted
    requires { 100 ≤ length line.old }
    ensures { Gives line.old line.new result code o.«record» o.stores (A.number o.answer) (A.values o.answer) }
{
    Acted {
        record: o.record,
        stores: o.stores,
        len: o.answer.show(line, code),
    }
}

pub fn answered<A: Shown>(line: &mut [u8], code: u8, o: Answered<A>) -> Acted
    requires { 100 ≤ length line.old }
    ensures { Gives line.old line.new result code o.«record» 0 (A.number o.answer) (A.values o.answer) }
{
    Acted {
        record: o.record,
        stores: 0,
        len: o.answer.show(line, code),
    }
}

fn refused(line: &mut [u8], code: u8, x: Refusal) -> usize
    requires { 100 ≤ length line.old }
    ensures { Shows line.old line.new result code (refusal_number x) [] }
{
    trace_report::reply_line(line, code, u8::from(x))
}

impl Shown for Reply<()> {
    ghost number = { reply_number };

    ghost values = { λ a. [] };

    fn show(self, line: &mut [u8], code: u8) -> usize {
        trace_report::reply_line(line, code, record_ops::reply_number(self))
    }
}

// "the endpoint"
impl Shown for Result<u8, AllocRefusal> {
    ghost number = { alloc_number };

    ghost values = { alloc_values };

    fn show(self, line: &mut [u8], code: u8) -> usize {
        match self {
            Ok(n) => trace_report::value_line(line, code, 0, u32::from(n)),
            Err(AllocRefusal::NotGiven(x)) => trace_report::reply_line(line, code, u8::from(x)),
            Err(AllocRefusal::Refused(x)) => refused(line, code, x),
        }
    }
}

// "0 or 1"
impl Shown for Reply<bool> {
    ghost number = { stalled_number };

    ghost values = { stalled_values };

    fn show(self, line: &mut [u8], code: u8) -> usize {
        match self {
            Ok(b) => trace_report::value_line(line, code, 0, u32::from(b)),
            Err(x) => refused(line, code, x),
        }
    }
}

// "0 None, 1 Data with out, in, setup masks, 2 Reset, 3 Resume, 4 Suspend"
impl Shown for Reply<PollResult> {
    ghost number = { poll_number };

    ghost values = { poll_values };

    fn show(self, line: &mut [u8], code: u8) -> usize {
        match self {
            Ok(PollResult::None) => trace_report::value_line(line, code, 0, 0),
            Ok(PollResult::Data(m)) => trace_report::masks_line(
                line,
                code,
                0,
                1,
                u32::from(m.ep_out),
                u32::from(m.ep_in_complete),
                u32::from(m.ep_setup),
            ),
            Ok(PollResult::Reset) => trace_report::value_line(line, code, 0, 2),
            Ok(PollResult::Resume) => trace_report::value_line(line, code, 0, 3),
            Ok(PollResult::Suspend) => trace_report::value_line(line, code, 0, 4),
            Err(x) => refused(line, code, x),
        }
    }
}

// The other three ask for more than room: a count that the decimal writer takes, or the buffer that the bytes stand in.
// "written length"
pub fn written(line: &mut [u8], code: u8, o: Called<Reply<usize>>) -> Acted
    requires { (100 ≤ length line.old) × WriteFits o.answer }
    ensures { Gives line.old line.new result code o.«record» o.stores (write_number o.answer) (write_values o.answer) }
{
    let len = match o.answer {
        Ok(n) => trace_report::value_line(line, code, 0, n as u32),
        Err(x) => refused(line, code, x),
    };
    Acted {
        record: o.record,
        stores: o.stores,
        len,
    }
}

// "for reads the count then stored bytes", which stand at the front of the read's buffer
pub fn fetched(line: &mut [u8], code: u8, o: Called<Reply<usize>>, buf: &[u8]) -> Acted
    requires { (100 + 4 * length buf.now ≤ length line.old) × ReadFits o.answer buf.now }
    ensures { Gives line.old line.new result code o.«record» o.stores (read_number o.answer) (read_values o.answer buf.now) }
{
    let len = match o.answer {
        Ok(n) => trace_report::counted_line(line, code, 0, n as u32, &buf[..n]),
        Err(x) => refused(line, code, x),
    };
    Acted {
        record: o.record,
        stores: o.stores,
        len,
    }
}

// "for collect the bytes", at the place that the collection gave
pub fn collected(line: &mut [u8], code: u8, o: Answered<Reply<Span>>, fifo: &[u8]) -> Acted
    requires { (100 + 4 * length fifo.now ≤ length line.old) × InBuffer o.answer fifo.now }
    ensures { Gives line.old line.new result code o.«record» 0 (collect_number o.answer) (collect_values o.answer fifo.now) }
{
    let len = match o.answer {
        Ok(s) => trace_report::bytes_line(line, code, 0, &fifo[s.start..s.start + s.size]),
        Err(x) => refused(line, code, x),
    };
    Acted {
        record: o.record,
        stores: 0,
        len,
    }
}
