// Writes the report of a trace to a writer, a line at a time: the same memory for every trace.
// Document 01: `musb-trace 1`, a line for each entry, and the last line.

#![tactic(auto)]

ghost use Rattle.std.specs.Prelude.{◌≡◌, false, true, ◌+◌, ◌≤◌, length, take, replicate, [], IfOk, OnOk, OnErr};
ghost use Rattle.std.specs.Io.KnownBytes.{Appends};
ghost use Rattle.board.specs.declared.Board.TheVariants.{Display};
ghost use Rattle.record.specs.Record.{fresh_record};
ghost use Rattle.trace_rules.specs.Lines.{header, last_line};
ghost use Rattle.report_rules.specs.Report.{beginning, begun, report_for, report_of};
ghost use Rattle.report_rules.specs.Runs.{Has, Completes};
ghost use Rattle.trace_reporter.specs.Told.{Told, AppendsFront, LeftAt};
ghost use Rattle.trace_reporter.specs.Detailed.{details, detailed_rest, detailed_for};
ghost use Rattle.trace_reporter.specs.Under.{Under};

use board::Board;
use record::Record;
use report_rules::Came;
use std::io;
use std::io::{ErrorKind, Write};

fn store_list() -> [u16; 384]
    ensures { result ≡ replicate 384 0 }
{
    [0; 384]
}

// Room for the longest line: a collection of all FIFO memory.
fn line_buffer() -> [u8; 8192]
    ensures { 8192 ≡ length result }
{
    [0; 8192]
}

// All the bytes: each write hands the writer all that it has not taken yet, as std's `write_all` does, which does not say what an error leaves. Here
// a writer whose bytes are known has then got a front part of these. A write that was interrupted is made again.
fn write_whole<W: Write>(to: &mut W, bytes: &[u8]) -> io::Result<()>
    ensures ok { OnOk result (Appends (W.contents to.old) (W.contents to.new) bytes.now) }
    ensures err { OnErr result (AppendsFront (W.contents to.old) (W.contents to.new) bytes.now) }
{
    let mut taken: usize = 0;
    for _ in 0..u64::MAX {
        if bytes.len() <= taken {
            return Ok(());
        }
        match to.write(&bytes[taken..]) {
            Ok(0) => {
                return Err(io::Error::new(ErrorKind::WriteZero, "failed to write whole buffer"));
            }
            Ok(n) => taken += n,
            Err(e) => {
                if e.kind() != ErrorKind::Interrupted {
                    return Err(e);
                }
            }
        }
    }
    Err(io::Error::from(ErrorKind::TimedOut))
}

// The report's only way out: the bytes are those that the report has at the place `done`, and the place moves past them. One place goes through
// all calls, from 0 to the report's length (`put_report`): the report's bytes in their order. That nothing else moves the place is to be seen here.
// It has moved also where the write failed.
// A writer whose bytes are known has then got just these, and at an error a front part of what the report has from there on (`left`). What a call
// of the system writes no contract can say.
// (A struct of the trace, the record and the first FIFO memory, which go to three functions, is no plainer: of one that holds lent slices an `ensures`
// has to say `report.entry.trace.now` for `trace.now`, and so on for each of the three.)
fn put<W: Write>(
    to: &mut W,
    trace: &[u8],
    k: Record,
    first: &[u8; 1664],
    done: &mut usize,
    line: &[u8],
) -> io::Result<()>
    requires { (done.old + length line.now ≤ 1000000000) × Has (beginning k first.now) trace.now done.old line.now }
    ensures place { done.new ≡ done.old + length line.now }
    ensures bytes { OnOk result (Appends (W.contents to.old) (W.contents to.new) line.now) }
    ensures told { OnOk result (Told (beginning k first.now) trace.now (W.contents to.old) (W.contents to.new) done.old done.new) }
    ensures left { OnErr result (LeftAt (beginning k first.now) trace.now (W.contents to.old) (W.contents to.new) done.old) }
{
    *done += line.len();
    write_whole(to, line)
}

// The last line, a word and a number: it ends the report from the record k and the FIFO memory that stood there at first.
// (`OnOk result (Appends ..)` stands in each clause as it is: two words of std, and what was appended differs.)
fn put_last<W: Write>(
    to: &mut W,
    trace: &[u8],
    k: Record,
    first: &[u8; 1664],
    done: &mut usize,
    line: &mut [u8],
    word: &[u8; 3],
    n: u32,
) -> io::Result<()>
    requires { (8192 ≤ length line.old) × (done.old ≤ 900000000) × Completes (beginning k first.now) trace.now done.old (last_line word.now n) }
    ensures place { done.new ≡ length (report_for (beginning k first.now) trace.now) }
    ensures bytes { OnOk result (Appends (W.contents to.old) (W.contents to.new) (last_line word.now n)) }
    ensures told { OnOk result (Told (beginning k first.now) trace.now (W.contents to.old) (W.contents to.new) done.old done.new) }
    ensures left { OnErr result (LeftAt (beginning k first.now) trace.now (W.contents to.old) (W.contents to.new) done.old) }
{
    let len = trace_report::last_line(line, word, n);
    put(to, trace, k, first, done, &line[..len])
}

// A line under an entry's line, only where it is asked for: the entry's stores, or the record after it.
fn put_under<W: Write>(
    to: &mut W,
    detail: bool,
    list: &[u16],
    stores: usize,
    k: Record,
    line: &[u8],
) -> io::Result<()>
    requires { (detail ≡ true) × Under list.now stores k line.now }
    ensures { OnOk result (Appends (W.contents to.old) (W.contents to.new) line.now) }
{
    to.write_all(line)
}

// Both lines, for comparing with the original, where they are asked for. The list holds 128 stores. (`detail` is no closure and no type of
// what stands under a line: what an error leaves, `left`, is told without detail alone, so that a clause would have to ask which it is.)
fn put_details<W: Write>(
    to: &mut W,
    detail: bool,
    list: &[u16],
    stores: usize,
    k: Record,
    line: &mut [u8],
) -> io::Result<()>
    requires { (384 ≤ length list.now) × (8192 ≤ length line.old) }
    ensures none { detail ≡ false → Appends (W.contents to.old) (W.contents to.new) [] }
    ensures both { detail ≡ true → OnOk result (Appends (W.contents to.old) (W.contents to.new) (details list.now stores k)) }
{
    if !detail {
        return Ok(());
    }
    let n = stores.min(128);
    let a = trace_details::stores_line(line, list, n);
    put_under(to, detail, list, n, k, &line[..a])?;
    let b = trace_details::record_line(line, k);
    put_under(to, detail, list, n, k, &line[..b])
}

// The entries of a trace that is not too long, each with its line, and the last line. The header is written. After an error the place stands behind the
// last line of the report that was begun.
// (No Iterator over the entries: a step changes the record and what is lent, all of which it would have to hold.)
fn put_entries<W: Write>(
    to: &mut W,
    trace: &[u8],
    detail: bool,
    start: Record,
    first: [u8; 1664],
    done: &mut usize,
) -> io::Result<()>
    requires { (length trace.now ≤ 65536) × (done.old ≡ length header) }
    ensures place { OnOk result (done.new ≡ length (report_for (beginning start first) trace.now)) }
    ensures told { detail ≡ false → OnOk result (Told (beginning start first) trace.now (W.contents to.old) (W.contents to.new) done.old done.new) }
    ensures left { detail ≡ false → OnErr result (LeftAt (beginning start first) trace.now (W.contents to.old) (W.contents to.new) done.old) }
    ensures detailed { detail ≡ true → OnOk result (Appends (W.contents to.old) (W.contents to.new) (detailed_rest trace.now 0 0 (beginning start first))) }
{
    let mut k = start;
    let mut fifo = first;
    let mut list = store_list();
    let mut line = line_buffer();
    let mut at: usize = 0;
    let mut count: u32 = 0;
    loop {
        let r = trace_step::step(trace, at, k, &mut fifo, &mut list, &mut line);
        match r.came {
            Came::Line(len, past) => {
                put(to, trace, start, &first, done, &line[..len])?;
                k = r.record;
                put_details(to, detail, &list, r.stores, k, &mut line)?;
                at = past;
                count += 1;
            }
            Came::End => {
                return put_last(to, trace, start, &first, done, &mut line, b"end", count);
            }
            Came::Bad => {
                return put_last(to, trace, start, &first, done, &mut line, b"bad", at as u32);
            }
        }
    }
}

// The report of a trace that begins with a record and FIFO memory; with `detail`, its stores and the record under each entry's line. It gives
// the report's length, all of which it has written; an error is the writer's, which has then got a front part of the report.
pub fn put_report<W: Write>(
    to: &mut W,
    trace: &[u8],
    detail: bool,
    start: Record,
    first: [u8; 1664],
) -> io::Result<usize>
    ensures count { IfOk result (λ n. n ≡ length (report_for (beginning start first) trace.now)) }
    ensures written { detail ≡ false → OnOk result (Appends (W.contents to.old) (W.contents to.new) (report_for (beginning start first) trace.now)) }
    ensures left { detail ≡ false → OnErr result (AppendsFront (W.contents to.old) (W.contents to.new) (report_for (beginning start first) trace.now)) }
    ensures detailed { detail ≡ true → OnOk result (Appends (W.contents to.old) (W.contents to.new) (detailed_for (beginning start first) trace.now)) }
{
    let mut line = line_buffer();
    let mut done: usize = 0;
    let len = trace_report::header_line(&mut line);
    put(to, trace, start, &first, &mut done, &line[..len])?;
    if 65536 < trace.len() {
        put_last(
            to, trace, start, &first, &mut done, &mut line, b"bad", 65536,
        )?;
        return Ok(done);
    }
    put_entries(to, trace, detail, start, first, &mut done)?;
    Ok(done)
}

// The same of a fresh display.
pub fn put_fresh<W: Write>(to: &mut W, trace: &[u8], detail: bool) -> io::Result<usize>
    ensures count { IfOk result (λ n. n ≡ length (report_of (fresh_record Display) trace.now)) }
    ensures written { detail ≡ false → OnOk result (Appends (W.contents to.old) (W.contents to.new) (report_of (fresh_record Display) trace.now)) }
    ensures left { detail ≡ false → OnErr result (AppendsFront (W.contents to.old) (W.contents to.new) (report_of (fresh_record Display) trace.now)) }
    ensures detailed { detail ≡ true → OnOk result (Appends (W.contents to.old) (W.contents to.new) (detailed_for (begun (fresh_record Display)) trace.now)) }
{
    put_report(
        to,
        trace,
        detail,
        record_ops::fresh(Board::Display),
        [0; 1664],
    )
}
