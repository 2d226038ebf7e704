// Encoding: scalars as the bytes that a message has of them.
#![tactic(auto)]

ghost use Rattle.std.specs.Prelude.{◌≡◌, true, ◌+◌, ◌≤◌, cond, length};
ghost use Rattle.std.specs.Float.{binary32, binary64};
ghost use Rattle.std.specs.Float.Ieee.{is_nan, to_bits};
ghost use Rattle.sim0mq.specs.Mark.{kind_of};
ghost use Rattle.asking_scalars.specs.Bytes.{bytes_of_mark};
ghost use Rattle.writing_encoding.specs.Scalars.{mark_taken, scalar_given};
ghost use Rattle.sim0mq.specs.Table.{placed};
ghost use Rattle.writing_puts.specs.Placing.{number_text};
ghost use Rattle.writing_encoding.specs.Encoded.{field_in, encoded_as, marked_given};

use sim0mq_displays::{currency_taken, display_taken};
use sim0mq_kinds::{Mark, Scalar};
use sim0mq_numbers::wide;
use sim0mq_tables::per;
use writing_puts::{bits, put_big, put_number};

// An encoded field: its bytes, with zero after them, and how many they are.
#[derive(Clone, Copy)]
pub struct Encoded {
    pub bytes: [u8; 13],
    pub length: usize,
}

// The field of this code that is one number of n bytes.
fn plain(code: u8, n: usize, x: u64) -> Encoded
    requires { n ≤ 8 }
    ensures { result ≡ field_in (number_text code n x) }
{
    let mut bytes = [0u8; 13];
    put_number(&mut bytes, 0, code, n, x);
    Encoded {
        bytes,
        length: 1 + n,
    }
}

// Whether reading takes this mark, and gives just these numbers for it.
#[tactic(auto, using(crate::proofs::EncodeCases::mark_kinds))]
pub fn mark_taken(mark: Mark) -> bool
    ensures { result ≡ mark_taken mark (kind_of mark.unit) }
{
    let unit = wide(mark.unit);
    match unit {
        0..=28 => mark.currency == 0 && display_taken(unit, mark.display),
        100 => currency_taken(usize::from(mark.currency)) && mark.display == 0,
        101..=106 => currency_taken(usize::from(mark.currency))
            && display_taken(per(unit - 101), mark.display),
        _ => false,
    }
}

// The bytes of a mark in `out` from 1 on: the place after them.
fn put_mark(mark: Mark, out: &mut [u8]) -> usize
    requires { (mark_taken mark (kind_of mark.unit) ≡ true) × (5 ≤ length out.old) }
    ensures after { result ≡ 1 + length (bytes_of_mark mark (kind_of mark.unit)) }
    ensures written { out.new ≡ placed out.old 1 (bytes_of_mark mark (kind_of mark.unit)) }
{
    out[1] = mark.unit;
    if mark.unit <= 28 {
        out[2] = mark.display;
        return 3;
    }
    put_big(out, 2, 2, u64::from(mark.currency));
    if mark.unit == 100 {
        return 4;
    }
    out[4] = mark.display;
    5
}

// The field of this code that is a mark and a number of n bytes; none where the mark may not be written.
fn marked(code: u8, mark: Mark, n: usize, x: u64) -> Option<Encoded>
    requires { n ≤ 8 }
    ensures { result ≡ encoded_as (marked_given code mark n x) }
{
    if !mark_taken(mark) {
        return None;
    }
    let mut bytes = [0u8; 13];
    bytes[0] = code;
    let end = put_mark(mark, &mut bytes);
    put_big(&mut bytes, end, n, x);
    Some(Encoded {
        bytes,
        length: end + n,
    })
}

// The bits of a float; none where it is a NaN.
fn float_bits(x: f32) -> Option<u64>
    ensures { result ≡ cond (is_nan x) None (Some (to_bits binary32 x)) }
{
    if x.is_nan() {
        return None;
    }
    Some(u64::from(x.to_bits()))
}

// The bits of a double; none where it is a NaN.
fn double_bits(x: f64) -> Option<u64>
    ensures { result ≡ cond (is_nan x) None (Some (to_bits binary64 x)) }
{
    if x.is_nan() {
        return None;
    }
    Some(x.to_bits())
}

// The field that a scalar is written as; none where it may not be written.
pub fn encode(value: Scalar) -> Option<Encoded>
    ensures { result ≡ encoded_as (scalar_given value) }
{
    match value {
        Scalar::Byte(x) => Some(plain(0, 1, bits(i64::from(x), 255))),
        Scalar::Short(x) => Some(plain(1, 2, bits(i64::from(x), 65535))),
        Scalar::Int(x) => Some(plain(2, 4, bits(i64::from(x), 4294967295))),
        Scalar::Long(x) => Some(plain(3, 8, bits(x, 18446744073709551615))),
        Scalar::Float(x) => Some(plain(4, 4, float_bits(x)?)),
        Scalar::Double(x) => Some(plain(5, 8, double_bits(x)?)),
        Scalar::Boolean(x) => Some(plain(6, 1, u64::from(x))),
        Scalar::Char8(x) => Some(plain(7, 1, u64::from(x))),
        Scalar::Char16(x) => Some(plain(8, 2, u64::from(x))),
        Scalar::FloatUnit(x, mark) => marked(25, mark, 4, float_bits(x)?),
        Scalar::DoubleUnit(x, mark) => marked(26, mark, 8, double_bits(x)?),
        Scalar::NotNumber(_) => None,
    }
}
