// The scalar value of the field k of a message, read afresh.
#![tactic(auto)]

ghost use Rattle.std.specs.Prelude.{◌≡◌, ◌+◌, ◌<◌, ◌≤◌, length};
ghost use Rattle.reading_fields.specs.Items.{seen};
ghost use Rattle.asking_scalars.specs.Scalars.{mark_at, Standing, scalar_of, value as value_of, valued};

use asking::ask;
use reading_fields::Field;
use sim0mq::{Reason, Refusal, refuse};
use sim0mq_kinds::{Mark, Scalar, double_of, double_with, float_of, float_with};
use sim0mq_numbers::number;
use sim0mq_signed::{i8_of, i16_of, i32_of, i64_of};

// The mark whose unit type stands at `at`.
fn mark_at(s: &[u8], at: usize) -> Mark
    requires { at + 4 ≤ length s.now }
    ensures { result ≡ mark_at s.now at }
{
    let unit = s[at];
    let none = Mark {
        unit,
        currency: 0,
        display: 0,
    };
    if unit <= 28 {
        return Mark {
            unit,
            currency: 0,
            display: s[at + 1],
        };
    }
    if unit <= 99 {
        return none;
    }
    if 106 < unit {
        return none;
    }
    let currency = number(s, at + 1, 2) as u16;
    let mut display: u8 = 0;
    if unit != 100 {
        display = s[at + 3];
    }
    Mark {
        unit,
        currency,
        display,
    }
}

// The value of a Boolean, of a character, or of a float or double with its mark; or the refusal 17.
fn further(s: &[u8], f: Field) -> Result<Scalar, Refusal>
    requires { Standing s.now (seen f) × (5 < f.code) }
    ensures { valued result ≡ scalar_of s.now (seen f) }
{
    let at = f.first;
    if f.code == 6 {
        return Ok(Scalar::Boolean(0 < number(s, at, 1)));
    }
    if f.code == 7 {
        return Ok(Scalar::Char8(number(s, at, 1) as u8));
    }
    if f.code == 8 {
        return Ok(Scalar::Char16(number(s, at, 2) as u16));
    }
    if f.code == 25 {
        return Ok(float_with(number(s, at, 4) as u32, mark_at(s, f.place + 1)));
    }
    if f.code == 26 {
        return Ok(double_with(number(s, at, 8) as u64, mark_at(s, f.place + 1)));
    }
    refuse(Reason::Kind, 0)
}

// The value of a field of an accepted message; or the refusal 17, where it is no scalar.
fn scalar_of(s: &[u8], f: Field) -> Result<Scalar, Refusal>
    requires { Standing s.now (seen f) }
    ensures { valued result ≡ scalar_of s.now (seen f) }
{
    let at = f.first;
    if f.code == 0 {
        return Ok(Scalar::Byte(i8_of(number(s, at, 1) as u8)));
    }
    if f.code == 1 {
        return Ok(Scalar::Short(i16_of(number(s, at, 2) as u16)));
    }
    if f.code == 2 {
        return Ok(Scalar::Int(i32_of(number(s, at, 4) as u32)));
    }
    if f.code == 3 {
        return Ok(Scalar::Long(i64_of(number(s, at, 8) as u64)));
    }
    if f.code == 4 {
        return Ok(float_of(number(s, at, 4) as u32));
    }
    if f.code == 5 {
        return Ok(double_of(number(s, at, 8) as u64));
    }
    further(s, f)
}

// The value of field k, where it is a scalar; else the refusal, which is asking's or 17.
pub fn value(message: &[u8], k: usize) -> Result<Scalar, Refusal>
    ensures { valued result ≡ value_of message.now k }
{
    let field = ask(message, k)?;
    scalar_of(message, field)
}
