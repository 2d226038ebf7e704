// The head of a payload field: its code and its counts, with what they ask for.
#![tactic(auto)]

ghost use Rattle.std.specs.Prelude.{◌≡◌, ◌*◌, ◌<◌, ◌≤◌};
ghost use Rattle.sim0mq.specs.Field.{mark_count, head as head_of};
ghost use Rattle.sim0mq.specs.Answer.{fine};
ghost use Rattle.sim0mq_tables.specs.Markings.{marking_number};
ghost use Rattle.reading_heads.specs.Heads.{head_in, headed, asked_for};

use sim0mq::{Reason, Refusal, refuse};
use sim0mq_numbers::{count, wide};
use sim0mq_tables::{Marked, counts, marking};

// A field's code and counts, with the values and the marks that they ask for; and the place after them.
#[derive(Clone, Copy)]
pub struct Asked {
    pub code: usize,
    pub values: usize,
    pub marked: usize,
    pub next: usize,
}

// How many marks a field of this marking has.
fn mark_count(marking: Marked, columns: usize) -> usize
    ensures { result ≡ mark_count (marking_number marking) columns }
{
    match marking {
        Marked::None => 0,
        Marked::One => 1,
        Marked::PerColumn => columns,
    }
}

// The product of two counts.
fn product(r: usize, c: usize) -> usize
    requires { (r < 4294967296) × (c < 4294967296) }
    ensures { result ≡ r * c }
{
    r * c
}

// What a field of this code asks for whose counts say so many values and columns and end at `next`.
fn asking(code: usize, values: usize, columns: usize, next: usize) -> Asked
    requires { code ≤ 32 }
    ensures { fine (head_in result) ≡ asked_for code values columns next }
{
    Asked {
        code,
        values,
        marked: mark_count(marking(code), columns),
        next,
    }
}

// The code and the counts of the field at `at`.
pub fn head(s: &[u8], at: usize) -> Result<Asked, Refusal>
    ensures { headed result ≡ head_of s.now at }
{
    if s.len() <= at {
        return refuse(Reason::BytesEnd, s.len());
    }
    let code = wide(s[at]);
    if 32 < code {
        return refuse(Reason::NoSuchCode, at);
    }
    let p = at + 1;
    let k = counts(code);
    if k == 0 {
        return Ok(asking(code, 1, 1, p));
    }
    let n = count(s, p)?;
    if k == 1 {
        return Ok(asking(code, n, 1, p + 4));
    }
    let c = count(s, p + 4)?;
    Ok(asking(code, product(n, c), c, p + 8))
}
