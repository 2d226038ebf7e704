// The tail of a recording: the index of its messages, and the trailer.
#![tactic(auto)]

ghost use Rattle.std.specs.Prelude.{◌≡◌, ◌+◌, ◌≤◌, length};
ghost use Rattle.sim0mq.specs.Table.{placed};
ghost use Rattle.sim0mq.specs.Views.{judged};
ghost use Rattle.writing_opening.specs.Opening.{buffer_after};
ghost use Rattle.recordings_format.specs.Edition.{newest, entry_size, trailer_size};
ghost use Rattle.recordings_format.specs.Text.{entry_text, index_text, trailer_text};
ghost use Rattle.recordings_tails.specs.Tails.{come, Indexable, tailing, length_after};

use recordings_format::{ENTRY, LENGTH_BYTES, MOST, NEWEST, TRAILER};
use sim0mq::{LIMIT, Reason, Refusal, refuse};
use sim0mq_numbers::wide32;
use writing_puts::put_big;

// Whether none of these lengths is more than a message has, and they come to `at`.
fn come_to(lengths: &[u32], at: usize) -> bool
    ensures { result ≡ come newest lengths.now at }
{
    let mut left = at;
    for length in lengths {
        let size = wide32(*length);
        if LIMIT < size {
            return false;
        }
        if left < size {
            return false;
        }
        left -= size;
    }
    left == 0
}

// Puts the entry of a message of `size` bytes that begins at `start` in `out` from p on.
fn put_entry(out: &mut [u8], p: usize, start: usize, size: usize)
    requires { p + entry_size newest ≤ length out.old }
    ensures { out.new ≡ placed out.old p (entry_text newest start size) }
{
    put_big(out, p, 4, start as u64);
    put_big(out, p + 4, LENGTH_BYTES, size as u64);
}

// Puts the index of messages of these lengths, which end at `at`, in `out` from there on.
fn put_index(lengths: &[u32], out: &mut [u8], at: usize)
    requires { Indexable lengths.now at (length out.old) }
    ensures { out.new ≡ placed out.old at (index_text newest 0 lengths.now) }
{
    let mut p = at;
    let mut start: usize = 0;
    for length in lengths {
        let size = wide32(*length);
        put_entry(out, p, start, size);
        start += size;
        p += ENTRY;
    }
}

// Puts the trailer of n entries, the first of which is at `place`, in `out` from p on.
#[tactic(auto, unfolding(recordings_format::specs::Edition::trailer_size))]
fn put_trailer(out: &mut [u8], p: usize, place: usize, n: usize)
    requires { p + trailer_size ≤ length out.old }
    ensures { out.new ≡ placed out.old p (trailer_text newest place n) }
{
    put_big(out, p, 4, place as u64);
    put_big(out, p + 4, 4, n as u64);
    put_big(out, p + 8, 2, NEWEST as u64);
}

// Puts the index and the trailer of messages of these lengths, which end at `at`, in `out` from there on: the whole
// length. Or 15 at 0, where the lengths are too many, one is too long or they do not come to `at`, then 14 at 0, where
// `out` has no room; refused, `out` is as it was.
#[tactic(auto, unfolding(crate::specs::Tails::tailing, crate::specs::Tails::room_for, recordings_format::specs::Edition::most_messages, recordings_format::specs::Edition::trailer_size))]
pub fn put_tail(lengths: &[u32], out: &mut [u8], at: usize) -> Result<usize, Refusal>
    ensures answer { judged result ≡ length_after at (tailing newest lengths.now at (length out.old)) }
    ensures written { out.new
        ≡ buffer_after out.old at (tailing newest lengths.now at (length out.old)) }
{
    let n = lengths.len();
    if MOST < n {
        return refuse(Reason::State, 0);
    }
    if !come_to(lengths, at) {
        return refuse(Reason::State, 0);
    }
    if out.len() < at {
        return refuse(Reason::TooShort, 0);
    }
    if out.len() - at < ENTRY * n + TRAILER {
        return refuse(Reason::TooShort, 0);
    }
    put_index(lengths, out, at);
    let end = at + ENTRY * n;
    put_trailer(out, end, at, n);
    Ok(end + TRAILER)
}
