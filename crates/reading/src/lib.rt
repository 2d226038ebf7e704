// Reading: the header, then the part after it; with a table, or with none.
#![tactic(auto)]

ghost use Rattle.std.specs.Prelude.{◌≡◌, ◌+◌, ◌*◌, ◌≤◌, length, take};
ghost use Rattle.sim0mq.specs.Header.{most_fields};
ghost use Rattle.sim0mq.specs.Table.{row_size, stored};
ghost use Rattle.sim0mq.specs.Views.{number_of, judged};
ghost use Rattle.sim0mq_numbers.specs.Numbers.{Below};
ghost use Rattle.reading_payload.specs.Parts.{payload_steps};
ghost use Rattle.sim0mq.specs.Message.{limit, no_table, table as table_of, reading as reading_of, table_after};
ghost use Rattle.reading.specs.Answers.{answer_as, answered, refused_at, answer_of};
ghost use Rattle.reading.specs.Rows.{Fillable, filled};

use reading_front::opened;
use reading_header::Frame;
use reading_payload::{FEW, payload};
use sim0mq::{FIELDS, ROW, Refusal};

// What reading finds in an accepted message: its length, its field count and its steps.
#[derive(Clone, Copy)]
pub struct Found {
    pub length: usize,
    pub fields: usize,
    pub steps: usize,
}

// What reading answers, with the eight frames beside it: on a refusal all of them have place and code 0.
#[derive(Clone, Copy)]
pub struct Answer {
    pub said: Result<Found, Refusal>,
    pub frames: [Frame; 8],
}

// A refusal, with no frames.
fn refused(r: Refusal) -> Answer
    ensures { answer_as result ≡ refused_at (number_of r.reason) r.place }
{
    Answer {
        said: Err(r),
        frames: [Frame { place: 0, code: 0 }; 8],
    }
}

// The first n numbers of `kept` at the front of the table.
fn copied(kept: &[u32], n: usize, table: &mut [u32])
    requires { (n ≤ length kept.now) × (n ≤ length table.old) }
    ensures { table.new ≡ stored table.old (take n kept.now) }
{
    table[..n].copy_from_slice(&kept[..n]);
}

// Judges the payload of n fields that begins at `next`, and stores its rows in the table once it is accepted; `kept`
// holds them until then.
fn filled_by(
    message: &[u8],
    next: usize,
    n: usize,
    kept: &mut [u32],
    table: &mut [u32],
) -> Result<usize, Refusal>
    requires { Fillable message.now next n (length kept.old) (length table.old) }
    ensures answer { (judged result ≡ payload_steps message.now next n)
        × Below (length message.now + 1) result }
    ensures stored { table.new ≡ filled message.now next n table.old }
{
    let steps = payload(message, next, n, 0, kept)?;
    copied(kept, ROW * n, table);
    Ok(steps)
}

// Judges the payload of n fields that begins at `next`, and stores its rows in the table once it is accepted.
fn fill(message: &[u8], next: usize, n: usize, table: &mut [u32]) -> Result<usize, Refusal>
    requires { Fillable message.now next n (most_fields * row_size) (length table.old) }
    ensures answer { (judged result ≡ payload_steps message.now next n)
        × Below (length message.now + 1) result }
    ensures stored { table.new ≡ filled message.now next n table.old }
{
    if n <= FEW {
        let mut few = [0u32; FEW * ROW];
        return filled_by(message, next, n, &mut few, table);
    }
    let mut all = [0u32; FIELDS * ROW];
    filled_by(message, next, n, &mut all, table)
}

// The answer of a message of so many bytes that has these frames and so many fields, where this is what its payload's
// reader says.
fn told_by(bytes: usize, frames: [Frame; 8], fields: usize, said: Result<usize, Refusal>) -> Answer
    requires { Below (limit + 1) said }
    ensures { answer_as result ≡ answer_of bytes frames fields (judged said) }
{
    match said {
        Err(r) => refused(r),
        Ok(steps) => Answer {
            said: Ok(Found {
                length: bytes,
                fields,
                steps: 8 + steps,
            }),
            frames,
        },
    }
}

// Reads the message, and stores its rows in the table once it is accepted.
pub fn read(message: &[u8], table: &mut [u32]) -> Answer
    ensures answer { answer_as result ≡ answered (reading_of (table_of (length table.old)) message.now) }
    ensures stored { table.new
        ≡ table_after table.old (reading_of (table_of (length table.old)) message.now) }
{
    let o = opened(message, Some(table.len()));
    match o.said {
        Err(r) => refused(r),
        Ok(e) => {
            let filling = fill(message, e.next, e.fields, table);
            told_by(message.len(), o.frames, e.fields, filling)
        }
    }
}

// Judges the message as reading does, with no table.
pub fn judge(message: &[u8]) -> Answer
    ensures { answer_as result ≡ answered (reading_of no_table message.now) }
{
    let o = opened(message, None);
    match o.said {
        Err(r) => refused(r),
        Ok(e) => {
            let mut none = [0u32; 0];
            let judging = payload(message, e.next, e.fields, 0, &mut none);
            told_by(message.len(), o.frames, e.fields, judging)
        }
    }
}
