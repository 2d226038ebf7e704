// How many heads are on each deck after a recording: its messages are mustered in order, from the empty ledger and the
// empty book.
#![tactic(auto)]

ghost use Rattle.std.specs.Prelude.{◌≡◌, ◌+◌, ◌≤◌, length, take, drop};
ghost use Rattle.sim0mq.specs.Answer.{refused as refusal};
ghost use Rattle.sim0mq.specs.Message.{limit};
ghost use Rattle.sim0mq.specs.Views.{number_of, said_as};
ghost use Rattle.recordings_format.specs.Judge.{stretch};
ghost use Rattle.recordings.specs.Recordings.{Stated};
ghost use Rattle.ledger.specs.Ledger.{mustered_as};
ghost use Rattle.ledger_decks.specs.Mustering.{mustering};
ghost use Rattle.ledger_recordings.specs.Reckoning.{reckoning, comes_as, opened_as, reckoned_as, turned};

use ledger::{Mustered, muster_framed};
use ledger_decks::Ledger;
use reading::judge;
use recordings_index::{Placed, Trailer, index};
use senders_book::Book;
use sim0mq::{Reason, Refusal, refuse};

// What a recording comes to: how many messages were applied, or the refusal of opening it; how many were refused and
// passed over; and the ledger after them, which is empty where the recording does not open.
#[derive(Clone, Copy)]
pub struct Reckoned {
    pub said: Result<usize, Refusal>,
    pub refused: usize,
    pub ledger: Ledger,
}

// Reads the message that stands there, of at most `most` bytes, and musters it: what mustering came to, which may have
// passed it over; or the refusal by which the recording does not open.
fn muster_part(
    ledger: Ledger,
    book: Book,
    s: &[u8],
    m: Placed,
    most: usize,
) -> Result<Mustered, Refusal>
    requires { (m.start + m.length ≤ length s.now) × (most ≤ limit) }
    ensures { said_as mustered_as result
        ≡ turned ledger book (stretch most s.now m.start m.length)
        (mustering ledger.heads book.senders (take m.length (drop m.start s.now))) }
{
    let at = m.start;
    if most < m.length {
        return refuse(Reason::TooLong, at);
    }
    let part = &s[at..at + m.length];
    let a = judge(part);
    match a.said {
        Err(r) => refuse(r.reason, at + r.place),
        Ok(f) => Ok(muster_framed(ledger, book, part, a.frames, f.fields)),
    }
}

// Reads and musters each message that the index of this trailer states; or the refusal of the first that is not
// accepted.
fn muster_each(s: &[u8], t: Trailer) -> Result<Reckoned, Refusal>
    requires { Stated s.now t }
    ensures { opened_as result ≡ reckoned_as (reckoning s.now) }
{
    let mut ledger = ledger::empty();
    let mut book = senders::empty();
    let mut applied: usize = 0;
    for k in 0..t.entries {
        let m = t.entry(s.len(), s, k);
        let came = muster_part(ledger, book, s, m, t.edition.most)?;
        ledger = came.ledger;
        book = came.book;
        let one = usize::from(came.said.is_ok());
        applied += one;
    }
    Ok(Reckoned {
        said: Ok(applied),
        refused: t.entries - applied,
        ledger,
    })
}

// This refusal, with the empty ledger.
fn refused(r: Refusal) -> Reckoned
    ensures { comes_as result ≡ reckoned_as (refusal (number_of r.reason) r.place) }
{
    Reckoned {
        said: Err(r),
        refused: 0,
        ledger: ledger::empty(),
    }
}

// How many heads are on each deck after a recording, how many of its messages were applied, and how many refused and
// passed over; or the refusal of opening it. Each message is read once.
pub fn reckon(recording: &[u8]) -> Reckoned
    ensures { comes_as result ≡ reckoned_as (reckoning recording.now) }
{
    let Some(t) = index(recording) else {
        return refused(Refusal {
            place: 0,
            reason: Reason::Trailer,
        });
    };
    match muster_each(recording, t) {
        Err(r) => refused(r),
        Ok(all) => all,
    }
}
