// The kinds of a scalar value, and the float or double that some bits write.
#![tactic(auto)]

ghost use Rattle.std.specs.Prelude.{◌≡◌, cond};
ghost use Rattle.std.specs.Float.{binary32, binary64};
ghost use Rattle.std.specs.Float.Ieee.{nan_bits, of_bits};
ghost use Rattle.sim0mq_kinds.specs.Kinds.{float_of, double_of, with_float, with_double};

// A unit mark: unit type, currency code and display code, 0 where the mark has none.
#[derive(Clone, Copy)]
pub struct Mark {
    pub unit: u8,
    pub currency: u16,
    pub display: u8,
}

// A scalar value: a signed number of its width, a float, a double, a Boolean, a character of 8 or 16 bits, a float or
// double with its mark; or, where the bits are a NaN, that they are not a number, with the field's code.
#[derive(Clone, Copy)]
pub enum Scalar {
    Byte(i8),
    Short(i16),
    Int(i32),
    Long(i64),
    Float(f32),
    Double(f64),
    Boolean(bool),
    Char8(u8),
    Char16(u16),
    FloatUnit(f32, Mark),
    DoubleUnit(f64, Mark),
    NotNumber(u8),
}

// The bits of a float's infinity, and its sign's bit: bits that are above infinity's without the sign are a NaN.
pub const FLOAT_INFINITY: u32 = 0x7f80_0000;

pub const FLOAT_SIGN: u32 = 0x8000_0000;

// The same of a double.
pub const DOUBLE_INFINITY: u64 = 0x7ff0_0000_0000_0000;

pub const DOUBLE_SIGN: u64 = 0x8000_0000_0000_0000;

// The float of these bits, where they are not a NaN.
#[tactic(auto, using(crate::proofs::Nan::nan_tests))]
fn float(bits: u32) -> Option<f32>
    ensures { result ≡ cond (nan_bits binary32 bits) None (Some (of_bits binary32 bits)) }
{
    if FLOAT_INFINITY < bits % FLOAT_SIGN {
        None
    } else {
        Some(f32::from_bits(bits))
    }
}

// The double of these bits, where they are not a NaN.
#[tactic(auto, using(crate::proofs::Nan::nan_tests))]
fn double(bits: u64) -> Option<f64>
    ensures { result ≡ cond (nan_bits binary64 bits) None (Some (of_bits binary64 bits)) }
{
    if DOUBLE_INFINITY < bits % DOUBLE_SIGN {
        None
    } else {
        Some(f64::from_bits(bits))
    }
}

// The float of these bits, of a field of code 4; or that they are not a number.
#[tactic(auto, unfolding(crate::specs::Kinds::float_of))]
pub fn float_of(x: u32) -> Scalar
    ensures { result ≡ float_of x }
{
    match float(x) {
        Some(value) => Scalar::Float(value),
        None => Scalar::NotNumber(4),
    }
}

// The double of these bits, of a field of code 5; or that they are not a number.
#[tactic(auto, unfolding(crate::specs::Kinds::double_of))]
pub fn double_of(x: u64) -> Scalar
    ensures { result ≡ double_of x }
{
    match double(x) {
        Some(value) => Scalar::Double(value),
        None => Scalar::NotNumber(5),
    }
}

// The float of these bits with its mark, of a field of code 25; or that they are not a number.
#[tactic(auto, unfolding(crate::specs::Kinds::with_float))]
pub fn float_with(bits: u32, mark: Mark) -> Scalar
    ensures { result ≡ with_float bits mark }
{
    match float(bits) {
        Some(value) => Scalar::FloatUnit(value, mark),
        None => Scalar::NotNumber(25),
    }
}

// The double of these bits with its mark, of a field of code 26; or that they are not a number.
#[tactic(auto, unfolding(crate::specs::Kinds::with_double))]
pub fn double_with(bits: u64, mark: Mark) -> Scalar
    ensures { result ≡ with_double bits mark }
{
    match double(bits) {
        Some(value) => Scalar::DoubleUnit(value, mark),
        None => Scalar::NotNumber(26),
    }
}
