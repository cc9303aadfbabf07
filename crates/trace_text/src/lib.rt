// The text of a report, piece by piece: bytes, decimal numbers, fields. Each function writes at a place of a lent buffer and gives the place after.
// (A struct that holds the lent buffer and the place would have to say in each contract that it holds the same buffer still: no plainer.)

#![tactic(auto)]

ghost use Rattle.std.specs.Prelude.{◌≡◌, ℕ, [], ◌∷◌, ◌+◌, ◌*◌, ◌≤◌, ◌<◌, map, length};
ghost use Rattle.trace_rules.specs.Text.{Wrote, decimal, field, fields};

pub fn put(out: &mut [u8], at: usize, b: u8) -> usize
    requires { at < length out.old }
    ensures { Wrote out.old out.new at result (b ∷ []) }
{
    out[at] = b;
    at + 1
}

// The digits of n, the most significant first. By hand: of std's `write!` into lent memory no contract says which bytes it leaves.
pub fn put_decimal(out: &mut [u8], at: usize, n: u32) -> usize
    requires { at + 10 ≤ length out.old }
    ensures wrote { Wrote out.old out.new at result (decimal n) }
    ensures upper_bound { result ≤ at + 10 }
{
    if n < 10 {
        return put(out, at, 48 + n as u8);
    }
    let m = put_decimal(out, at, n / 10);
    put(out, m, 48 + (n % 10) as u8)
}

// A blank, and the digits of n.
pub fn put_field(out: &mut [u8], at: usize, n: u32) -> usize
    requires { at + 11 ≤ length out.old }
    ensures wrote { Wrote out.old out.new at result (field n) }
    ensures upper_bound { result ≤ at + 11 }
{
    let m = put(out, at, 32);
    put_decimal(out, m, n)
}

// What a report shows in a field: its number, whose field has at most `most` bytes.
pub trait Shown: Copy {
    ghost value: { Self → ℕ };

    ghost most: { ℕ };

    fn number(self) -> u32
        ensures value { result ≡ value self }
        ensures short { length (field result) ≤ most };
}

impl Shown for u8 {
    ghost value = { λ x. x };

    ghost most = { 4 };

    #[tactic(auto, using(trace_rules::proofs::Appended::short_field))]
    fn number(self) -> u32 {
        u32::from(self)
    }
}

impl Shown for u16 {
    ghost value = { λ x. x };

    ghost most = { 6 };

    #[tactic(auto, using(trace_rules::proofs::Appended::word_field))]
    fn number(self) -> u32 {
        u32::from(self)
    }
}

impl Shown for u32 {
    ghost value = { λ x. x };

    ghost most = { 11 };

    #[tactic(auto, using(trace_rules::proofs::Appended::long_field))]
    fn number(self) -> u32 {
        self
    }
}

// Each number of s as a field.
pub fn put_fields<T: Shown>(out: &mut [u8], at: usize, s: &[T]) -> usize
    requires { at + 11 + T.most * length s.now ≤ length out.old }
    ensures wrote { Wrote out.old out.new at result (fields (map T.value s.now)) }
    ensures upper_bound { result ≤ at + T.most * length s.now }
{
    let mut m = at;
    for x in s {
        m = put_field(out, m, x.number());
    }
    m
}

// The bytes of s as they are.
pub fn put_text(out: &mut [u8], at: usize, s: &[u8]) -> usize
    requires { at + length s.now ≤ length out.old }
    ensures { Wrote out.old out.new at result s.now }
{
    let end = at + s.len();
    out[at..end].copy_from_slice(s);
    end
}

pub fn put_three(out: &mut [u8], at: usize, a: u32, b: u32, c: u32) -> usize
    requires { at + 33 ≤ length out.old }
    ensures wrote { Wrote out.old out.new at result (fields (a ∷ b ∷ c ∷ [])) }
    ensures upper_bound { result ≤ at + 33 }
{
    let i = put_field(out, at, a);
    let j = put_field(out, i, b);
    put_field(out, j, c)
}
