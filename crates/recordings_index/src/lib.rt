// The trailer and the index of a recording.
#![tactic(auto)]

ghost use Rattle.std.specs.Prelude.{◌≡◌, ◌<◌, ◌≤◌, ◌^◌, length};
ghost use Rattle.recordings_format.specs.Edition.{edition_of, trailer_size};
ghost use Rattle.recordings_format.specs.Judge.{trailer_from, index as index_of};
ghost use Rattle.recordings_index.specs.Index.{known_as, trailed_as, summed, reached_as, summed_in, first_entry, entry_at, Trailing, tiled};
ghost use Rattle.recordings_index.specs.Tail.{trailer_in, index_in};

use recordings_format::{LENGTH_BYTES, MOST, NEWEST, TRAILER};
use sim0mq::LIMIT;
use sim0mq_numbers::number;

// An edition: its number, the bytes of a length in its index, and the most bytes of a message.
#[derive(Clone, Copy)]
pub struct Edition {
    pub number: usize,
    pub wide: usize,
    pub most: usize,
}

// The edition of this number.
#[tactic(auto, unfolding(recordings_format::specs::Edition::edition_in, sim0mq::specs::Message::limit))]
fn row_of(n: usize) -> Option<Edition>
    ensures { known_as result ≡ edition_of n }
{
    if n == 1 {
        return Some(Edition {
            number: 1,
            wide: 2,
            most: 32768,
        });
    }
    if n == NEWEST {
        return Some(Edition {
            number: NEWEST,
            wide: LENGTH_BYTES,
            most: LIMIT,
        });
    }
    None
}

// What the trailer says: the edition, the place of the first entry, and the number of entries.
#[derive(Clone, Copy)]
pub struct Trailer {
    pub edition: Edition,
    pub place: usize,
    pub entries: usize,
}

// Where a message stands.
#[derive(Clone, Copy)]
pub struct Placed {
    pub start: usize,
    pub length: usize,
}

impl Trailer {
    // Where message k stands, as its entry states in the last bytes of a file of n; what is past those bytes is 0.
    pub fn entry(self, n: usize, tail: &[u8], k: usize) -> Placed
        ensures answer { result ≡ entry_at n tail.now self k }
        ensures narrow { (result.start < 256 ^ 4) × (result.length < 256 ^ self.edition.wide) }
    {
        let wide = self.edition.wide;
        let from = tail.len().saturating_sub(n.saturating_sub(self.place));
        let p = wide
            .saturating_add(4)
            .saturating_mul(k)
            .saturating_add(from);
        Placed {
            start: number(tail, p, 4),
            length: number(tail, p.saturating_add(4), wide),
        }
    }
}

// The trailer of these numbers, which begins at `at`, where it is right.
#[tactic(auto, using(crate::proofs::TrailerCases::from_narrow, crate::proofs::TrailerCases::from_small), unfolding(recordings_format::specs::Judge::trailer_from, recordings_format::specs::Edition::most_messages))]
fn trailer_from(n: usize, place: usize, entries: usize, at: usize) -> Option<Trailer>
    requires { place < 4294967296 }
    ensures { trailed_as result ≡ trailer_from n place entries at }
{
    let edition = row_of(n)?;
    if MOST < entries {
        return None;
    }
    if place + (4 + edition.wide) * entries != at {
        return None;
    }
    Some(Trailer {
        edition,
        place,
        entries,
    })
}

// The trailer of a file of n bytes that ends in these: the last ten of them.
#[tactic(auto, using(crate::proofs::TrailerCases::trailer_read), unfolding(recordings_format::specs::Edition::trailer_size))]
fn trailer_of(n: usize, tail: &[u8]) -> Option<Trailer>
    requires { (trailer_size ≤ length tail.now) × (trailer_size ≤ n) }
    ensures { trailed_as result ≡ trailer_in n tail.now }
{
    let at = tail.len() - TRAILER;
    let place = number(tail, at, 4);
    let entries = number(tail, at + 4, 4);
    let e = number(tail, at + 8, 2);
    trailer_from(e, place, entries, n - TRAILER)
}

// Whether the entries that this trailer of a file of n bytes states tile the bytes before them.
fn tiles(n: usize, tail: &[u8], t: Trailer) -> bool
    requires { Trailing tail.now t.edition.wide (first_entry n tail.now t) t.entries }
    ensures { result ≡ tiled tail.now t.edition.wide (first_entry n tail.now t) t.entries t.place }
{
    let mut at: usize = 0;
    for k in 0..t.entries {
        let m = t.entry(n, tail, k);
        if m.start != at {
            return false;
        }
        at += m.length;
    }
    at == t.place
}

// What came of the last bytes of a file: what its trailer says; that trailer or index is wrong; or how many of its last
// bytes are wanted.
#[derive(Clone, Copy)]
pub enum Reached {
    Found(Trailer),
    Wrong,
    Wanted(usize),
}

// What trailer and index say of a file of n bytes that ends in these, where both are right; or how many of its last
// bytes are wanted, where these do not reach the first entry.
#[tactic(auto, unfolding(crate::specs::Tail::index_in, recordings_format::specs::Edition::trailer_size))]
pub fn index_tail(n: usize, tail: &[u8]) -> Reached
    ensures { reached_as result ≡ summed_in (index_in n tail.now) }
{
    if n < TRAILER {
        return Reached::Wrong;
    }
    if n < tail.len() {
        return Reached::Wrong;
    }
    if tail.len() < TRAILER {
        return Reached::Wanted(TRAILER);
    }
    let Some(t) = trailer_of(n, tail) else {
        return Reached::Wrong;
    };
    let want = n - t.place;
    if tail.len() < want {
        return Reached::Wanted(want);
    }
    if !tiles(n, tail, t) {
        return Reached::Wrong;
    }
    Reached::Found(t)
}

// What trailer and index say, where both are right: the edition, the place of the index, and the number of messages.
// The whole recording reaches as far as is wanted.
#[tactic(auto, using(crate::proofs::TailLaws::whole_comes, crate::proofs::TailLaws::whole_wants))]
pub fn index(s: &[u8]) -> Option<Trailer>
    ensures { trailed_as result ≡ summed (index_of s.now) }
{
    match index_tail(s.len(), s) {
        Reached::Found(t) => Some(t),
        Reached::Wrong => None,
        Reached::Wanted(_) => None,
    }
}
