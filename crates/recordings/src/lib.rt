// Opening a recording, and asking for a message in it.
#![tactic(auto)]

ghost use Rattle.std.specs.Prelude.{◌≡◌, ◌+◌, ◌*◌, ◌≤◌, length};
ghost use Rattle.sim0mq.specs.Message.{limit, no_table, table as table_of};
ghost use Rattle.sim0mq.specs.Table.{placed, stored};
ghost use Rattle.sim0mq.specs.Views.{judged};
ghost use Rattle.recordings_format.specs.Judge.{index as index_of, stretch as stretch_of, place_size, opening, places, places_after, asking};
ghost use Rattle.recordings_index.specs.Index.{summed};
ghost use Rattle.recordings.specs.Recordings.{trailer_said, asked_as, Stated, lengths_in, numbers_of, Storable, size_of, count_of};

use reading::judge;
pub use recordings_index::Placed;
use recordings_index::{Trailer, index};
use sim0mq::{Reason, Refusal, refuse};

// How many numbers a message has in a table: its start and its length.
pub const PLACE: usize = 2;

// What the trailer says, where trailer and index are right; else the refusal.
fn trailer(s: &[u8]) -> Result<Trailer, Refusal>
    ensures { trailer_said result ≡ summed (index_of s.now) }
{
    match index(s) {
        None => refuse(Reason::Trailer, 0),
        Some(t) => Ok(t),
    }
}

// The message that stands there, of at most `most` bytes: its length, or its own refusal, with its place in the
// recording.
fn stretch(s: &[u8], m: Placed, most: usize) -> Result<usize, Refusal>
    requires { (m.start + m.length ≤ length s.now) × (most ≤ limit) }
    ensures { judged result ≡ size_of (stretch_of most s.now m.start m.length) }
{
    let at = m.start;
    if most < m.length {
        return refuse(Reason::TooLong, at);
    }
    match judge(&s[at..at + m.length]).said {
        Ok(f) => Ok(f.length),
        Err(r) => refuse(r.reason, at + r.place),
    }
}

// Each message that the index of this trailer states: how many they are, or the refusal of the first that is not
// accepted.
fn messages(s: &[u8], t: Trailer) -> Result<usize, Refusal>
    requires { Stated s.now t }
    ensures { judged result ≡ count_of (opening no_table s.now) }
{
    for k in 0..t.entries {
        let m = t.entry(s.len(), s, k);
        let _length = stretch(s, m, t.edition.most)?;
    }
    Ok(t.entries)
}

// The two numbers of message k in a table.
#[tactic(auto, unfolding(recordings_format::specs::Edition::most_messages, recordings_format::specs::Judge::place_size))]
fn put_place(table: &mut [u32], k: usize, m: Placed)
    requires { Storable (length table.old) k m }
    ensures { table.new ≡ placed table.old (place_size * k) (numbers_of m) }
{
    let i = PLACE * k;
    table[i] = m.start as u32;
    table[i + 1] = m.length as u32;
}

// The starts and the lengths that the index of this trailer states, at the front of a table that has room for them.
fn store(s: &[u8], t: Trailer, table: &mut [u32])
    requires { Stated s.now t × (place_size * t.entries ≤ length table.old) }
    ensures { table.new
        ≡ stored table.old (places 0 (lengths_in (index_of s.now))) }
{
    for k in 0..t.entries {
        put_place(table, k, t.entry(s.len(), s, k));
    }
}

// Opens a recording: the number of its messages, or the refusal.
pub fn open(s: &[u8]) -> Result<usize, Refusal>
    ensures { judged result ≡ count_of (opening no_table s.now) }
{
    let t = trailer(s)?;
    messages(s, t)
}

// Opens a recording, and stores where each message stands, its start and its length, once all are accepted.
pub fn open_into(s: &[u8], table: &mut [u32]) -> Result<usize, Refusal>
    ensures answer { judged result ≡ count_of (opening (table_of (length table.old)) s.now) }
    ensures stored { table.new
        ≡ places_after table.old (opening (table_of (length table.old)) s.now) }
{
    let t = trailer(s)?;
    if table.len() < PLACE * t.entries {
        return refuse(Reason::TooShort, 0);
    }
    let n = messages(s, t)?;
    store(s, t, table);
    Ok(n)
}

// Asks for message k, counted from 0: where it stands, or the refusal. Of the messages it judges that one only.
pub fn ask(s: &[u8], k: usize) -> Result<Placed, Refusal>
    ensures { asked_as result ≡ asking s.now k }
{
    let t = trailer(s)?;
    if t.entries <= k {
        return refuse(Reason::NoSuchItem, 0);
    }
    let m = t.entry(s.len(), s, k);
    let _length = stretch(s, m, t.edition.most)?;
    Ok(m)
}
