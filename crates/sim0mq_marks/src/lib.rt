// Unit marks.
#![tactic(auto)]

ghost use Rattle.std.specs.Prelude.{◌≡◌, ◌+◌, ◌<◌, ◌≤◌, length};
ghost use Rattle.sim0mq.specs.Mark.{currency as currency_of, mark as mark_of, marks as marks_of};
ghost use Rattle.sim0mq.specs.Views.{judged};
ghost use Rattle.sim0mq_marks.specs.By.{display_by, mark_by};

use sim0mq::{Reason, Refusal, refuse};
use sim0mq_displays::currency_taken;
use sim0mq_numbers::{number, wide};
use sim0mq_tables::{lasts, per};

// The currency code at `at`: the place after it.
fn currency(s: &[u8], at: usize) -> Result<usize, Refusal>
    requires { at ≤ length s.now }
    ensures { judged result ≡ currency_of s.now at }
{
    if s.len() - at < 2 {
        return refuse(Reason::BytesEnd, s.len());
    }
    if currency_taken(number(s, at, 2)) {
        return Ok(at + 2);
    }
    refuse(Reason::Currency, at)
}

// The display code of unit type t at `at`, by this row of last ones: the place after it.
fn display(s: &[u8], t: usize, at: usize, last: &[u8; 29]) -> Result<usize, Refusal>
    requires { t < 29 }
    ensures { judged result ≡ display_by last.now s.now t at }
{
    if s.len() <= at {
        return refuse(Reason::BytesEnd, s.len());
    }
    if s[at] <= last[t] {
        return Ok(at + 1);
    }
    refuse(Reason::Display, at)
}

// The mark at `at`, where four bytes are left, the most that a mark has: the place after it.
fn roomy(s: &[u8], at: usize, last: &[u8; 29]) -> Result<usize, Refusal>
    requires { at + 4 ≤ length s.now }
    ensures { judged result ≡ mark_by last.now s.now at }
{
    let u = wide(s[at]);
    if u <= 28 {
        if s[at + 1] <= last[u] {
            return Ok(at + 2);
        }
        return refuse(Reason::Display, at + 1);
    }
    if u <= 99 {
        return refuse(Reason::UnitType, at);
    }
    if 106 < u {
        return refuse(Reason::UnitType, at);
    }
    if !currency_taken(number(s, at + 1, 2)) {
        return refuse(Reason::Currency, at + 1);
    }
    if u == 100 {
        return Ok(at + 3);
    }
    let t = per(u - 101);
    if s[at + 3] <= last[t] {
        return Ok(at + 4);
    }
    refuse(Reason::Display, at + 3)
}

// The mark at `at`, where fewer may be left: the place after it.
fn scant(s: &[u8], at: usize, last: &[u8; 29]) -> Result<usize, Refusal>
    requires { at < length s.now }
    ensures { judged result ≡ mark_by last.now s.now at }
{
    let u = wide(s[at]);
    if u <= 28 {
        return display(s, u, at + 1, last);
    }
    if u <= 99 {
        return refuse(Reason::UnitType, at);
    }
    if u == 100 {
        return currency(s, at + 1);
    }
    if 106 < u {
        return refuse(Reason::UnitType, at);
    }
    let p = currency(s, at + 1)?;
    display(s, per(u - 101), p, last)
}

// The mark at `at`, by this row of last display codes: the place after it.
pub fn mark_by(s: &[u8], at: usize, last: &[u8; 29]) -> Result<usize, Refusal>
    ensures { judged result ≡ mark_by last.now s.now at }
{
    if s.len() <= at {
        return refuse(Reason::BytesEnd, s.len());
    }
    if 4 <= s.len() - at {
        return roomy(s, at, last);
    }
    scant(s, at, last)
}

// The mark at `at`: the place after it.
pub fn mark(s: &[u8], at: usize) -> Result<usize, Refusal>
    ensures { judged result ≡ mark_of s.now at }
{
    let last = lasts();
    mark_by(s, at, &last)
}

// The n marks from `at` on: the place after them.
pub fn marks(s: &[u8], n: usize, at: usize) -> Result<usize, Refusal>
    ensures { judged result ≡ marks_of s.now n at }
{
    let mut p = at;
    for _ in 0..n {
        p = mark(s, p)?;
    }
    Ok(p)
}
