// Numbers in bytes.
#![tactic(auto)]

ghost use Rattle.std.specs.Prelude.{◌≡◌, ◌<◌, ◌^◌};
ghost use Rattle.sim0mq.specs.Field.{count as count_of};
ghost use Rattle.sim0mq.specs.Views.{judged};
ghost use Rattle.sim0mq_numbers.specs.Numbers.{number_at, Below};

use sim0mq::{Reason, Refusal, refuse};

// A byte as a number.
pub fn wide(x: u8) -> usize
    ensures { (result ≡ x) × (result < 256) }
{
    x as usize
}

// A number of 32 bits, as wide as a place.
pub fn wide32(n: u32) -> usize
    ensures { (result ≡ n) × (result < 4294967296) }
{
    n as usize
}

// The number that the n bytes from `at` on write, where they are there and no more than eight; else 0.
pub fn number(s: &[u8], at: usize, n: usize) -> usize
    ensures { (result ≡ number_at s.now at n) × (result < 256 ^ n) }
{
    if s.len() < at {
        return 0;
    }
    if s.len() - at < n {
        return 0;
    }
    if 8 < n {
        return 0;
    }
    let mut x: usize = 0;
    for i in 0..n {
        x = x * 256 + wide(s[at + i]);
    }
    x
}

// The count at `at`: four bytes, not negative.
pub fn count(s: &[u8], at: usize) -> Result<usize, Refusal>
    ensures { (judged result ≡ count_of s.now at) × Below 4294967296 result }
{
    if s.len() <= at {
        return refuse(Reason::BytesEnd, s.len());
    }
    if s.len() - at < 4 {
        return refuse(Reason::BytesEnd, s.len());
    }
    if 128 <= s[at] {
        return refuse(Reason::NegativeCount, at);
    }
    Ok(number(s, at, 4))
}
