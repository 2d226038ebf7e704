// Blanking: a copy of a message that has zero in every payload value byte, so that it shows how the message is built
// and nothing of what it says.
#![tactic(auto)]

ghost use Rattle.std.specs.Prelude.{◌≡◌, ◌+◌, ◌*◌, ◌≤◌, length, drop};
ghost use Rattle.sim0mq.specs.Answer.{length_of};
ghost use Rattle.sim0mq.specs.Header.{most_fields};
ghost use Rattle.sim0mq.specs.Blank.{blanked, blanking, output_after};
ghost use Rattle.sim0mq.specs.Views.{judged};
ghost use Rattle.blanking.specs.Blanking.{copying, fields_of, Copyable, Blankable};
ghost use Rattle.sim0mq.specs.Table.{placed, row_size};
ghost use Rattle.sim0mq_buffers.specs.Placing.{put_in, cleared_in};

use reading_front::opened;
use reading_payload::{FEW, payload};
use sim0mq::{FIELDS, ROW, Reason, Refusal, refuse};
use sim0mq_buffers::{clear, put};
use sim0mq_numbers::wide32;

// The bytes of `text` in `out` from `at` on, and zero in the n bytes after them.
fn renew(text: &[u8], out: &mut [u8], at: usize, n: usize)
    requires { at + length text.now + n ≤ length out.old }
    ensures { out.new
        ≡ cleared_in (put_in out.old at text.now) (at + length text.now) n }
{
    if text.len() == 1 {
        out[at] = text[0];
        if n == 1 {
            out[at + 1] = 0;
            return;
        }
        clear(out, at + 1, n);
        return;
    }
    put(text, out, at);
    clear(out, at + text.len(), n);
}

// The copy of an accepted message in `out`, from `next` on, where its payload of n fields begins, whose rows are kept:
// of each field its code, counts and marks, and zero for its value bytes, which are not read.
fn blank_fields(message: &[u8], next: usize, n: usize, kept: &[u32], out: &mut [u8])
    requires { Blankable message.now next n kept.now out.old }
    ensures { out.new
        ≡ blanked (placed out.old next (drop next message.now))
        (fields_of message.now next n) }
{
    let mut at = next;
    for k in 0..n {
        let first = wide32(kept[ROW * k + 2]);
        let size = wide32(kept[ROW * k + 3]);
        renew(&message[at..first], out, at, size);
        at = first + size;
    }
}

// Judges the payload of n fields that begins at `next`, and makes the copy once it is accepted and there is room for
// it: the copy's length, or the refusal. `kept` holds the fields' rows.
fn copied_by(
    message: &[u8],
    next: usize,
    n: usize,
    kept: &mut [u32],
    out: &mut [u8],
) -> Result<usize, Refusal>
    requires { Copyable message.now next n (length kept.old) }
    ensures answer { judged result ≡ length_of (copying (length out.old) message.now next n) }
    ensures copied { out.new
        ≡ output_after out.old (copying (length out.old) message.now next n) }
{
    let _steps = payload(message, next, n, 0, kept)?;
    if out.len() < message.len() {
        return refuse(Reason::TooShort, 0);
    }
    put(&message[..next], out, 0);
    blank_fields(message, next, n, kept, out);
    Ok(message.len())
}

// Judges the payload of n fields that begins at `next`, and makes the copy once it is accepted and there is room for
// it: the copy's length, or the refusal.
fn copied(message: &[u8], next: usize, n: usize, out: &mut [u8]) -> Result<usize, Refusal>
    requires { Copyable message.now next n (most_fields * row_size) }
    ensures answer { judged result ≡ length_of (copying (length out.old) message.now next n) }
    ensures copied { out.new
        ≡ output_after out.old (copying (length out.old) message.now next n) }
{
    if n <= FEW {
        let mut few = [0u32; FEW * ROW];
        return copied_by(message, next, n, &mut few, out);
    }
    let mut all = [0u32; FIELDS * ROW];
    copied_by(message, next, n, &mut all, out)
}

// The length of the message, whose blanked copy is at the front of `out`; or the refusal, reading's or 14 where `out`
// is shorter than the message.
pub fn blank(message: &[u8], out: &mut [u8]) -> Result<usize, Refusal>
    ensures answer { judged result ≡ length_of (blanking (length out.old) message.now) }
    ensures copied { out.new
        ≡ output_after out.old (blanking (length out.old) message.now) }
{
    let e = opened(message, None).said?;
    copied(message, e.next, e.fields, out)
}
