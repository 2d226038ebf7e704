// Frame 0 of the header.
#![tactic(auto)]

ghost use Rattle.std.specs.Prelude.{◌≡◌};
ghost use Rattle.sim0mq.specs.Header.{digit as digit_of, magic as magic_of};
ghost use Rattle.sim0mq.specs.Views.{judged};
ghost use Rattle.reading_magic.specs.Magic.{literal_end, edition_end, is_frame0};

use sim0mq::{Reason, Refusal, refuse};
use sim0mq_numbers::{number, wide};

// Its bytes: 9 0 0 0 5 S I M, and the digits of the edition, 0 and 1 in ASCII.
pub const FRAME_0: [u8; 10] = [9, 0, 0, 0, 5, 83, 73, 77, 48, 49];

// They are also three numbers, of four, four and two bytes.
const FIRST_FOUR: usize = 0x0900_0000;

const NEXT_FOUR: usize = 0x0553_494d;

const DIGITS: usize = 0x3031;

// Whether frame 0 stands at the front of s, told by the three numbers.
fn is_frame_0(s: &[u8]) -> bool
    ensures { result ≡ is_frame0 s.now }
{
    if s.len() < 10 {
        return false;
    }
    if number(s, 0, 4) != FIRST_FOUR {
        return false;
    }
    if number(s, 4, 4) != NEXT_FOUR {
        return false;
    }
    number(s, 8, 2) == DIGITS
}

// Frame 0 before its digits: the place after it.
fn literal(s: &[u8]) -> Result<usize, Refusal>
    ensures { judged result ≡ literal_end s.now }
{
    for i in 0..8 {
        if s.len() <= i {
            return refuse(Reason::BytesEnd, s.len());
        }
        if s[i] != FRAME_0[i] {
            return refuse(Reason::Frame0, i);
        }
    }
    Ok(8)
}

// The digit at `at`.
fn digit(s: &[u8], at: usize) -> Result<usize, Refusal>
    ensures { judged result ≡ digit_of s.now at }
{
    if s.len() <= at {
        return refuse(Reason::BytesEnd, s.len());
    }
    let d = wide(s[at]);
    if d < 48 {
        return refuse(Reason::Frame0, at);
    }
    if 57 < d {
        return refuse(Reason::Frame0, at);
    }
    Ok(d)
}

// Frame 0, looked at byte by byte: the place after it.
fn each_byte(s: &[u8]) -> Result<usize, Refusal>
    ensures { judged result ≡ magic_of s.now }
{
    let _end = literal(s)?;
    let a = digit(s, 8)?;
    let b = digit(s, 9)?;
    edition(a, b)
}

// Frame 0's end where these are its digits.
fn edition(a: usize, b: usize) -> Result<usize, Refusal>
    ensures { judged result ≡ edition_end a b }
{
    if a != wide(FRAME_0[8]) {
        return refuse(Reason::Edition, 8);
    }
    if b != wide(FRAME_0[9]) {
        return refuse(Reason::Edition, 8);
    }
    Ok(10)
}

// Frame 0, of the edition 01: the place after it. Where it is as it should be, a look at three numbers is enough.
pub fn magic(s: &[u8]) -> Result<usize, Refusal>
    ensures { judged result ≡ magic_of s.now }
{
    if is_frame_0(s) {
        return Ok(10);
    }
    each_byte(s)
}
