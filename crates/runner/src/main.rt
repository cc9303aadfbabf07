// Reads a trace from standard input, and writes its report to standard output. Words choose, in any order:
//     display  the device; also where none is named
//     detail   under each entry's line, its stores and the record after it, for comparing with the original's report
//     given    the trace begins from a record and FIFO memory that stand before it: the record's 96 numbers as a detailed report prints
//              them, each in four bytes, low byte first, and the 1,664 bytes
// Any other word: one line on standard error, and nothing on standard output.

#![tactic(auto)]

ghost use Rattle.std.specs.Prelude.{◌≡◌, false, true, ◌≤◌, length, drop, OnOk, IfSome};
ghost use Rattle.std.specs.Io.KnownBytes.{Appends};
ghost use Rattle.board.specs.declared.Board.TheVariants.{Display};
ghost use Rattle.record.specs.Record.{fresh_record};
ghost use Rattle.report_rules.specs.Report.{begun, report_for, report_of};
ghost use Rattle.trace_reporter.specs.Detailed.{detailed_for};
ghost use Rattle.runner.specs.Behind.{begun_behind};

use std::env::{Env, FillError};
use std::io;
use std::io::{Read, Write};

#[derive(Clone, Copy, Default)]
struct Asked {
    detail: bool,
    given: bool,
}

#[derive(Clone, Copy)]
struct UnknownWord;

fn word(a: Asked, w: &[u8]) -> Result<Asked, UnknownWord> {
    match w {
        b"detail" => Ok(Asked { detail: true, ..a }),
        b"given" => Ok(Asked { given: true, ..a }),
        b"display" => Ok(a),
        _ => Err(UnknownWord),
    }
}

// A word that the memory does not hold is none of the three.
// (run_replay walks its arguments likewise: a function of both would be a crate, lent a closure that may fail, for these lines.)
fn words(env: &impl Env) -> Result<Asked, UnknownWord> {
    let mut a = Asked::default();
    for i in 1..usize::MAX {
        let mut w = [0u8; 4096];
        match env.arg(i, &mut w) {
            Ok(n) => a = word(a, &w[..n])?,
            Err(FillError::TooLong) => return Err(UnknownWord),
            Err(FillError::NotPresent) => break,
        }
    }
    Ok(a)
}

// One byte more than document 01 allows is read, so that a trace that is too long is seen to be so: the report is that of all bytes that follow.
// (Not one function with `report_fresh`: each has clauses of its own, here of the 2,048 bytes that stand before the trace.)
fn report_given<R: Read, W: Write>(from: &mut R, to: &mut W, detail: bool) -> io::Result<()>
    ensures written { detail ≡ false → OnOk result (IfSome (R.remaining from.old) (λ xs. 2048 ≤ length xs → Appends (W.contents to.old) (W.contents to.new) (report_for (begun_behind xs) (drop 2048 xs)))) }
    ensures detailed { detail ≡ true → OnOk result (IfSome (R.remaining from.old) (λ xs. 2048 ≤ length xs → Appends (W.contents to.old) (W.contents to.new) (detailed_for (begun_behind xs) (drop 2048 xs)))) }
{
    let mut head = [0u8; 384];
    let mut fifo = [0u8; 1664];
    let mut trace = [0u8; 65537];
    input::read_full(from, &mut head)?;
    input::read_full(from, &mut fifo)?;
    let n = input::read_full(from, &mut trace)?;
    let start = trace_given::record_from(&head);
    trace_reporter::put_report(to, &trace[..n], detail, start, fifo)?;
    Ok(())
}

// The same where nothing stands before the trace.
fn report_fresh<R: Read, W: Write>(from: &mut R, to: &mut W, detail: bool) -> io::Result<()>
    ensures written { detail ≡ false → OnOk result (IfSome (R.remaining from.old) (λ xs. Appends (W.contents to.old) (W.contents to.new) (report_of (fresh_record Display) xs))) }
    ensures detailed { detail ≡ true → OnOk result (IfSome (R.remaining from.old) (λ xs. Appends (W.contents to.old) (W.contents to.new) (detailed_for (begun (fresh_record Display)) xs))) }
{
    let mut trace = [0u8; 65537];
    let n = input::read_full(from, &mut trace)?;
    trace_reporter::put_fresh(to, &trace[..n], detail)?;
    Ok(())
}

fn main(rt: HostRuntime) -> io::Result<()> {
    let Ok(a) = words(&rt) else {
        return rt.eprintln("runner: the words are display, detail and given");
    };
    if a.given {
        return report_given(&mut rt.stdin(), &mut rt.stdout(), a.detail);
    }
    report_fresh(&mut rt.stdin(), &mut rt.stdout(), a.detail)
}
