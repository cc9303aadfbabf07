// An event trace, a step at a time: what stands at a place is parsed, carried out, and rendered as one line of the report.

#![tactic(auto)]

ghost use Rattle.std.specs.Prelude.{◌≡◌};
ghost use Rattle.report_rules.specs.Act.{state, Lent};
ghost use Rattle.report_rules.specs.Report.{stepped, step_of, Moves};

use record::Record;
use report_rules::{Came, Stepped};
use trace_rules::Parsed;

pub fn step(
    trace: &[u8],
    at: usize,
    k: Record,
    fifo: &mut [u8],
    list: &mut [u16],
    line: &mut [u8],
) -> Stepped
    requires { Lent trace.now fifo.old line.old }
    ensures line_after { stepped result fifo.new list.new line.new ≡ step_of trace.now at (state k fifo.old list.old) line.old }
    ensures moves { Moves trace.now at line.old result.came }
{
    let p = trace_entries::entry_at(trace, at);
    match p {
        Parsed::Found(e, past) => {
            let a = trace_act::act(trace, e, k, fifo, list, line);
            let next = a.record;
            Stepped {
                record: next,
                came: Came::Line(a.len, past),
                stores: a.stores,
            }
        }
        Parsed::End => Stepped {
            record: k,
            came: Came::End,
            stores: 0,
        },
        Parsed::Bad => Stepped {
            record: k,
            came: Came::Bad,
            stores: 0,
        },
    }
}
