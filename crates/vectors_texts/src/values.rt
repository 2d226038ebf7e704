// What asking answers, as text: a line with the value of a field or the refusal, then a line with the bytes of the
// field's view.
ghost use Rattle.std.specs.Prelude.{◌≤◌, length};

use programs_pieces::{number, put};
use sim0mq::Refusal;
use sim0mq_kinds::{Mark, Scalar};
use vectors_lines::within;

// The length of what asking `message` for field k answers, put at the front of `out`; 0 where it does not fit.
pub fn answer(message: &[u8], k: usize, out: &mut [u8]) -> usize
    ensures { result ≤ length out.new }
{
    let at = value(asking_scalars::value(message, k), out);
    let end = view(asking::view(message, k), out, at);
    within(end, out)
}

// The place after the line of a value, or of a refusal.
fn value(value: Result<Scalar, Refusal>, out: &mut [u8]) -> usize {
    match value {
        Err(refusal) => programs_listing::first_line(Err(refusal), out),
        Ok(scalar) => {
            let at = text(scalar, out);
            put(b"\n", out, at)
        }
    }
}

// The place after the bytes of a view, each after a space.
fn view(bytes: &[u8], out: &mut [u8], from: usize) -> usize {
    let mut at = put(b"view", out, from);
    for b in bytes {
        at = put(b" ", out, at);
        at = number(u64::from(*b), out, at);
    }
    put(b"\n", out, at)
}

// The place after a scalar: its kind and its number; a float and a double are told by the number that their bits write.
fn text(scalar: Scalar, out: &mut [u8]) -> usize {
    match scalar {
        Scalar::Byte(x) => signed(b"byte ", i64::from(x), out),
        Scalar::Short(x) => signed(b"short ", i64::from(x), out),
        Scalar::Int(x) => signed(b"int ", i64::from(x), out),
        Scalar::Long(x) => signed(b"long ", x, out),
        Scalar::Float(x) => float(x, out),
        Scalar::Double(x) => double(x, out),
        Scalar::Boolean(x) => unsigned(b"boolean ", u64::from(x), out),
        Scalar::Char8(x) => unsigned(b"char8 ", u64::from(x), out),
        Scalar::Char16(x) => unsigned(b"char16 ", u64::from(x), out),
        Scalar::FloatUnit(x, unit) => {
            let at = float(x, out);
            mark(unit, out, at)
        }
        Scalar::DoubleUnit(x, unit) => {
            let at = double(x, out);
            mark(unit, out, at)
        }
        Scalar::NotNumber(code) => unsigned(b"not a number ", u64::from(code), out),
    }
}

// The place after a word and a number.
fn unsigned(word: &[u8], n: u64, out: &mut [u8]) -> usize {
    let at = put(word, out, 0);
    number(n, out, at)
}

// The place after a word and a signed number.
fn signed(word: &[u8], n: i64, out: &mut [u8]) -> usize {
    let mut at = put(word, out, 0);
    if n < 0 {
        at = put(b"-", out, at);
    }
    number(n.unsigned_abs(), out, at)
}

// The place after a float, by its bits.
fn float(x: f32, out: &mut [u8]) -> usize {
    if x.is_nan() {
        return put(b"float, and not a number", out, 0);
    }
    unsigned(b"float ", u64::from(x.to_bits()), out)
}

// The place after a double, by its bits.
fn double(x: f64, out: &mut [u8]) -> usize {
    if x.is_nan() {
        return put(b"double, and not a number", out, 0);
    }
    unsigned(b"double ", x.to_bits(), out)
}

// The place after a mark: its unit type, currency and display code.
fn mark(mark: Mark, out: &mut [u8], from: usize) -> usize {
    let mut at = put(b" unit ", out, from);
    at = number(u64::from(mark.unit), out, at);
    at = put(b" currency ", out, at);
    at = number(u64::from(mark.currency), out, at);
    at = put(b" display ", out, at);
    number(u64::from(mark.display), out, at)
}
