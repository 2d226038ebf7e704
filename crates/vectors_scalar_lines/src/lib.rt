// The scalar that a line tells: its kind and its number, as the text of what asking answers has them. A float and a
// double are told by their bits.
#![tactic(auto)]

ghost use Rattle.std.specs.Prelude.{◌≡◌, ◌<◌, length, None};

use sim0mq_kinds::{DOUBLE_INFINITY, DOUBLE_SIGN, FLOAT_INFINITY, FLOAT_SIGN, Mark, Scalar};
use vectors_lines::wholes::signed;
use vectors_lines::{last, number, part};

// The scalar that `text` tells, none where it is not understood; the shortest text that tells one has five bytes.
pub fn scalar(text: &[u8]) -> Option<Scalar>
    ensures { length text.now < 5 → result ≡ None }
{
    if text.len() < 5 {
        return None;
    }
    by_word(text)
}

// The scalar that `text` tells, by its first word.
fn by_word(text: &[u8]) -> Option<Scalar> {
    if let Some(rest) = text.strip_prefix(b"byte ") {
        return i8::try_from(integer(rest)?).ok().map(Scalar::Byte);
    }
    if let Some(rest) = text.strip_prefix(b"short ") {
        return i16::try_from(integer(rest)?).ok().map(Scalar::Short);
    }
    if let Some(rest) = text.strip_prefix(b"int ") {
        return i32::try_from(integer(rest)?).ok().map(Scalar::Int);
    }
    if let Some(rest) = text.strip_prefix(b"long ") {
        return integer(rest).map(Scalar::Long);
    }
    if let Some(rest) = text.strip_prefix(b"float ") {
        return float(rest);
    }
    if let Some(rest) = text.strip_prefix(b"double ") {
        return double(rest);
    }
    further(text)
}

// The Boolean, the character or the "not a number" that `text` tells.
fn further(text: &[u8]) -> Option<Scalar> {
    if let Some(rest) = text.strip_prefix(b"boolean ") {
        return boolean(last(rest, 0)?);
    }
    if let Some(rest) = text.strip_prefix(b"char8 ") {
        return u8::try_from(last(rest, 0)?).ok().map(Scalar::Char8);
    }
    if let Some(rest) = text.strip_prefix(b"char16 ") {
        return u16::try_from(last(rest, 0)?).ok().map(Scalar::Char16);
    }
    let rest = text.strip_prefix(b"not a number ")?;
    u8::try_from(last(rest, 0)?).ok().map(Scalar::NotNumber)
}

// The signed number that `text` is.
fn integer(text: &[u8]) -> Option<i64> {
    let w = signed(text, 0);
    if w.at == text.len() { w.value } else { None }
}

// The Boolean of this number.
fn boolean(n: usize) -> Option<Scalar> {
    match n {
        0 => Some(Scalar::Boolean(false)),
        1 => Some(Scalar::Boolean(true)),
        _ => None,
    }
}

// The float that `text` tells, with its mark where it has one.
fn float(text: &[u8]) -> Option<Scalar> {
    let n = number(text, 0);
    let x = float_of(u32::try_from(n.value?).ok()?);
    match part(text, n.at, text.len()) {
        [] => Some(Scalar::Float(x)),
        rest => mark(rest).map(|m| Scalar::FloatUnit(x, m)),
    }
}

// The double that `text` tells, with its mark where it has one.
fn double(text: &[u8]) -> Option<Scalar> {
    let n = number(text, 0);
    let x = double_of(n.value? as u64);
    match part(text, n.at, text.len()) {
        [] => Some(Scalar::Double(x)),
        rest => mark(rest).map(|m| Scalar::DoubleUnit(x, m)),
    }
}

// The float of these bits, NaNs too.
#[tactic(auto, using(sim0mq_kinds::proofs::Nan::nan_tests))]
fn float_of(bits: u32) -> f32 {
    if FLOAT_INFINITY < bits % FLOAT_SIGN {
        f32::NAN
    } else {
        f32::from_bits(bits)
    }
}

// The double of these bits, NaNs too.
#[tactic(auto, using(sim0mq_kinds::proofs::Nan::nan_tests))]
fn double_of(bits: u64) -> f64 {
    if DOUBLE_INFINITY < bits % DOUBLE_SIGN {
        f64::NAN
    } else {
        f64::from_bits(bits)
    }
}

// The mark that `text` tells: ` unit U currency C display D`.
fn mark(text: &[u8]) -> Option<Mark> {
    let (unit, after) = worded(text, b" unit ")?;
    let (currency, after) = worded(after, b" currency ")?;
    let (display, after) = worded(after, b" display ")?;
    if !after.is_empty() {
        return None;
    }
    Some(Mark {
        unit: u8::try_from(unit).ok()?,
        currency: u16::try_from(currency).ok()?,
        display: u8::try_from(display).ok()?,
    })
}

// The number that stands in `text` after this word at its front, and the text after it.
fn worded<'a>(text: &'a [u8], word: &[u8]) -> Option<(usize, &'a [u8])> {
    let after = text.strip_prefix(word)?;
    let n = number(after, 0);
    Some((n.value?, part(after, n.at, after.len())))
}
