// The report of an event trace, as text: bytes appended to a lent buffer. Each function gives the place after what it wrote.

#![tactic(auto)]

ghost use Rattle.std.specs.Prelude.{[], ◌∷◌, ◌+◌, ◌*◌, ◌≤◌, map, length};
ghost use Rattle.trace_rules.specs.Text.{Wrote};
ghost use Rattle.trace_rules.specs.Lines.{numbers, line, header, last_line};

use trace_text::Shown;

// An entry's line begins with its code and reply.
// (No `Display`, for the reason at `put_decimal`; no struct of the line and its code, for the reason at the head of trace_text.)
fn begin(out: &mut [u8], code: u8, reply: u8) -> usize
    requires { 21 ≤ length out.old }
    ensures wrote { Wrote out.old out.new 0 result (numbers (code ∷ reply ∷ [])) }
    ensures upper_bound { result ≤ 21 }
{
    let m = trace_text::put_decimal(out, 0, u32::from(code));
    trace_text::put_field(out, m, u32::from(reply))
}

// An entry's line with these values.
fn numbers_line<T: Shown>(out: &mut [u8], code: u8, reply: u8, values: &[T]) -> usize
    requires { 33 + T.most * length values.now ≤ length out.old }
    ensures wrote { Wrote out.old out.new 0 result (line (code ∷ reply ∷ map T.value values.now)) }
    ensures upper_bound { result ≤ 22 + T.most * length values.now }
{
    let a = begin(out, code, reply);
    let end = trace_text::put_fields(out, a, values);
    trace_text::put(out, end, 10)
}

// The line of an entry that has no values: refused, or done with none.
pub fn reply_line(out: &mut [u8], code: u8, reply: u8) -> usize
    requires { 100 ≤ length out.old }
    ensures wrote { Wrote out.old out.new 0 result (line (code ∷ reply ∷ [])) }
    ensures upper_bound { result ≤ 100 }
{
    let values: [u32; 0] = [];
    numbers_line(out, code, reply, &values)
}

// One value.
pub fn value_line(out: &mut [u8], code: u8, reply: u8, value: u32) -> usize
    requires { 100 ≤ length out.old }
    ensures wrote { Wrote out.old out.new 0 result (line (code ∷ reply ∷ value ∷ [])) }
    ensures upper_bound { result ≤ 100 }
{
    numbers_line(out, code, reply, &[value])
}

// A value, and three masks. (Not by `numbers_line`: the must-fail edit trace_text/masks_order is on `put_three`, which nothing else calls.)
pub fn masks_line(out: &mut [u8], code: u8, reply: u8, value: u32, a: u32, b: u32, c: u32) -> usize
    requires { 100 ≤ length out.old }
    ensures wrote { Wrote out.old out.new 0 result (line (code ∷ reply ∷ value ∷ a ∷ b ∷ c ∷ [])) }
    ensures upper_bound { result ≤ 100 }
{
    let i = begin(out, code, reply);
    let j = trace_text::put_field(out, i, value);
    let m = trace_text::put_three(out, j, a, b, c);
    trace_text::put(out, m, 10)
}

// Each byte of s a value.
pub fn bytes_line(out: &mut [u8], code: u8, reply: u8, s: &[u8]) -> usize
    requires { 100 + 4 * length s.now ≤ length out.old }
    ensures wrote { Wrote out.old out.new 0 result (line (code ∷ reply ∷ s.now)) }
    ensures upper_bound { result ≤ 100 + 4 * length s.now }
{
    numbers_line(out, code, reply, s)
}

// A count, and then each byte of s. (Not by `numbers_line`: its values are one slice of one type, and without a heap the two make none.)
pub fn counted_line(out: &mut [u8], code: u8, reply: u8, count: u32, s: &[u8]) -> usize
    requires { 100 + 4 * length s.now ≤ length out.old }
    ensures wrote { Wrote out.old out.new 0 result (line (code ∷ reply ∷ count ∷ s.now)) }
    ensures upper_bound { result ≤ 100 + 4 * length s.now }
{
    let a = begin(out, code, reply);
    let b = trace_text::put_field(out, a, count);
    let m = trace_text::put_fields(out, b, s);
    trace_text::put(out, m, 10)
}

// The first line of every report.
pub fn header_line(out: &mut [u8]) -> usize
    requires { 100 ≤ length out.old }
    ensures wrote { Wrote out.old out.new 0 result header }
    ensures upper_bound { result ≤ 100 }
{
    trace_text::put_text(out, 0, b"musb-trace 1\n")
}

// The last line of a report: a word and a number.
// (No enum of End and Bad: `last_line` of trace_rules, and so each clause that names it, is over the word and the number.)
pub fn last_line(out: &mut [u8], word: &[u8; 3], n: u32) -> usize
    requires { 100 ≤ length out.old }
    ensures wrote { Wrote out.old out.new 0 result (last_line word.now n) }
    ensures upper_bound { result ≤ 100 }
{
    let a = trace_text::put_text(out, 0, word);
    let b = trace_text::put_field(out, a, n);
    trace_text::put(out, b, 10)
}
