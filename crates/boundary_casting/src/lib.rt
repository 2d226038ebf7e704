// Scalars as numbers, stored in the answer that a caller lends, and numbers as scalars.
#![tactic(auto)]

ghost use Rattle.std.specs.Prelude.{◌≡◌, ◌∷◌, ◌<◌, get_or};
ghost use Rattle.std.specs.Float.{binary32, binary64};
ghost use Rattle.std.specs.Float.Ieee.{to_bits};
ghost use Rattle.asking_scalars.specs.Scalars.{valued};
ghost use Rattle.boundary_casting.specs.Casting.{with_mark, with_none, scalar_numbers, value_numbers, from8, from16, from32, scalar_from};
ghost use Rattle.boundary_giving.specs.Given.{returned, answer_after};

use boundary_giving::give;
use sim0mq::Refusal;
use sim0mq_kinds::{Mark, Scalar, double_of, double_with, float_of, float_with};
use sim0mq_signed::{i8_of, i16_of, i32_of, i64_of};
use writing_puts::bits;

// The bits of a float; of a NaN, which asking never answers, the pattern with the sign clear and only the highest digit
// set.
fn float_bits(x: f32) -> u64
    ensures { result ≡ to_bits binary32 x }
{
    if x != x {
        return 2143289344;
    }
    f32::to_bits(x) as u64
}

// The bits of a double, in the same way.
fn double_bits(x: f64) -> u64
    ensures { result ≡ to_bits binary64 x }
{
    if x != x {
        return 9221120237041090560;
    }
    f64::to_bits(x)
}

// The numbers of a granted value that has no mark.
fn unmarked(kind: u64, bits: u64) -> [u64; 7]
    ensures { result ≡ 0 ∷ 0 ∷ with_none kind bits }
{
    [0, 0, kind, bits, 0, 0, 0]
}

// The numbers of a granted value that has a mark.
fn marked(kind: u64, bits: u64, m: Mark) -> [u64; 7]
    ensures { result ≡ 0 ∷ 0 ∷ with_mark kind bits m }
{
    [
        0,
        0,
        kind,
        bits,
        m.unit as u64,
        m.currency as u64,
        m.display as u64,
    ]
}

// The numbers of a granted value.
#[tactic(auto, unfolding(crate::specs::Casting::scalar_numbers))]
fn scalar_numbers(v: Scalar) -> [u64; 7]
    ensures { result ≡ 0 ∷ 0 ∷ scalar_numbers v }
{
    match v {
        Scalar::Byte(z) => unmarked(0, bits(z as i64, 255)),
        Scalar::Short(z) => unmarked(1, bits(z as i64, 65535)),
        Scalar::Int(z) => unmarked(2, bits(z as i64, 4294967295)),
        Scalar::Long(z) => unmarked(3, bits(z, 18446744073709551615)),
        Scalar::Float(x) => unmarked(4, float_bits(x)),
        Scalar::Double(x) => unmarked(5, double_bits(x)),
        Scalar::Boolean(b) => unmarked(6, b as u64),
        Scalar::Char8(n) => unmarked(7, n as u64),
        Scalar::Char16(n) => unmarked(8, n as u64),
        Scalar::FloatUnit(x, m) => marked(9, float_bits(x), m),
        Scalar::DoubleUnit(x, m) => marked(10, double_bits(x), m),
        Scalar::NotNumber(code) => unmarked(11, code as u64),
    }
}

// The numbers of what asking for a value answers.
fn value_numbers(said: Result<Scalar, Refusal>) -> [u64; 7]
    ensures numbers { result ≡ value_numbers (valued said) }
    ensures small { get_or result 0 0 < 4294967296 }
{
    match said {
        Err(r) => [r.reason.number() as u64, r.place as u64, 0, 0, 0, 0, 0],
        Ok(v) => scalar_numbers(v),
    }
}

// Stores the 7 numbers of what asking for a value answers in `answer`, and returns the first of them; 255, and nothing
// is stored, where `answer` is too short.
pub fn give_value(said: Result<Scalar, Refusal>, answer: &mut [u64]) -> u32
    ensures returned { result ≡ returned 7 answer.old (value_numbers (valued said)) }
    ensures answered { answer.new ≡ answer_after 7 answer.old (value_numbers (valued said)) }
{
    let numbers = value_numbers(said);
    give(&numbers, answer) as u32
}

// The scalar of a kind of 8 bits.
#[tactic(auto, unfolding(crate::specs::Casting::from8))]
fn from_8(kind: u8, x: u8) -> Scalar
    ensures { result ≡ from8 kind x }
{
    if kind == 0 {
        return Scalar::Byte(i8_of(x));
    }
    if kind == 7 {
        return Scalar::Char8(x);
    }
    if kind != 6 {
        return Scalar::NotNumber(0);
    }
    if 1 < x {
        return Scalar::NotNumber(0);
    }
    Scalar::Boolean(x == 1)
}

// The scalar of a kind of at most 16 bits.
#[tactic(auto, unfolding(crate::specs::Casting::from16))]
fn from_16(kind: u8, x: u16) -> Scalar
    ensures { result ≡ from16 kind x }
{
    if kind == 1 {
        return Scalar::Short(i16_of(x));
    }
    if kind == 8 {
        return Scalar::Char16(x);
    }
    if 255 < x {
        return Scalar::NotNumber(0);
    }
    from_8(kind, x as u8)
}

// The scalar of a kind of at most 32 bits.
#[tactic(auto, unfolding(crate::specs::Casting::from32))]
fn from_32(kind: u8, x: u32, mark: Mark) -> Scalar
    ensures { result ≡ from32 kind x mark }
{
    if kind == 2 {
        return Scalar::Int(i32_of(x));
    }
    if kind == 4 {
        return float_of(x);
    }
    if kind == 9 {
        return float_with(x, mark);
    }
    if 65535 < x {
        return Scalar::NotNumber(0);
    }
    from_16(kind, x as u16)
}

// The scalar of this kind, these bits and this mark; not a number, where there is none.
#[tactic(auto, unfolding(crate::specs::Casting::scalar_from))]
pub fn scalar_from(kind: u8, x: u64, mark: Mark) -> Scalar
    ensures { result ≡ scalar_from kind x mark }
{
    if kind == 3 {
        return Scalar::Long(i64_of(x));
    }
    if kind == 5 {
        return double_of(x);
    }
    if kind == 10 {
        return double_with(x, mark);
    }
    if 4294967295 < x {
        return Scalar::NotNumber(0);
    }
    from_32(kind, x as u32, mark)
}
