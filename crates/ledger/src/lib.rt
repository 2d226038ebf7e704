// The deck ledger: how many heads are on each of 16 decks. A muster message is judged by the ledger, taken by the book
// of senders, and then applied.
#![tactic(auto)]

ghost use Rattle.std.specs.Prelude.{◌≡◌, map, ◌≤◌, ◌<◌};
ghost use Rattle.sim0mq.specs.Answer.{refused as refusal};
ghost use Rattle.sim0mq.specs.Views.{number_of};
ghost use Rattle.reading_header.specs.Frames.{shown};
ghost use Rattle.senders_book.specs.Taking.{taking_framed};
ghost use Rattle.ledger_decks.specs.Decks.{deck_count, deck_heads, heads_on, one_more, one_less, decks_after};
ghost use Rattle.ledger_decks.specs.Mustering.{entering, mustering, mustering_framed};
ghost use Rattle.ledger_decks.specs.Promises.{CanBeDone};
ghost use Rattle.ledger.specs.Ledger.{emptied, mustered_as, after_mustering};

use ledger_decks::{DECKS, Deed, Ledger};
use ledger_judging::order;
use reading::judge;
use reading_header::Frame;
use senders::take_framed;
use senders_book::Book;
use sim0mq::Refusal;

// What mustering answers, the sender's place in the book or the refusal, and the ledger and the book that it hands
// back.
#[derive(Clone, Copy)]
pub struct Mustered {
    pub said: Result<usize, Refusal>,
    pub ledger: Ledger,
    pub book: Book,
}

// The ledger of no head.
pub fn empty() -> Ledger
    ensures { result ≡ emptied }
{
    Ledger {
        heads: [0u16; DECKS],
    }
}

// The decks after a deed that can be done.
#[tactic(auto, unfolding(ledger_decks::specs::Decks::decks_after))]
fn apply(heads: [u16; DECKS], deed: Deed) -> [u16; DECKS]
    requires { CanBeDone heads deed }
    ensures { result ≡ decks_after heads deed }
{
    let mut next = heads;
    match deed {
        Deed::Joins(joined) => next[joined] += 1,
        Deed::Moves(joined, left) => {
            if joined != left {
                next[left] -= 1;
                next[joined] += 1;
            }
        }
        Deed::Leaves(left) => next[left] -= 1,
    }
    next
}

// This refusal, with the ledger and the book that were taken.
fn refused(r: Refusal, ledger: Ledger, book: Book) -> Mustered
    ensures { mustered_as result ≡ after_mustering ledger book (refusal (number_of r.reason) r.place) }
{
    Mustered {
        said: Err(r),
        ledger,
        book,
    }
}

// The book takes the message by its frames, and the deed is done.
fn enter(ledger: Ledger, book: Book, s: &[u8], frames: [Frame; 8], deed: Deed) -> Mustered
    requires { CanBeDone ledger.heads deed }
    ensures { mustered_as result ≡ after_mustering ledger book
        (entering deed (taking_framed book.senders s.now (map shown frames))) }
{
    let t = take_framed(book, s, frames);
    match t.said {
        Err(r) => refused(r, ledger, book),
        Ok(i) => Mustered {
            said: Ok(i),
            ledger: Ledger {
                heads: apply(ledger.heads, deed),
            },
            book: t.book,
        },
    }
}

// Musters the message by its frames and the number of its fields, as reading answers them, without reading it again:
// the ledger with its deed done, and the book with its number; or the refusal, and both as they were. Frames and fields
// that do not stand in the message are refused as fields are that end too soon.
pub fn muster_framed(
    ledger: Ledger,
    book: Book,
    message: &[u8],
    frames: [Frame; 8],
    fields: usize,
) -> Mustered
    ensures { mustered_as result ≡ after_mustering ledger book
        (mustering_framed ledger.heads book.senders message.now (map shown frames) fields) }
{
    match order(
        ledger.heads,
        message,
        frames[4].place,
        frames[6].place,
        frames[7].place,
        fields,
    ) {
        Err(r) => refused(r, ledger, book),
        Ok(deed) => enter(ledger, book, message, frames, deed),
    }
}

// Musters the message: the ledger with its deed done, and the book with its number; or the refusal, and both as they
// were.
pub fn muster(ledger: Ledger, book: Book, message: &[u8]) -> Mustered
    ensures { mustered_as result ≡ after_mustering ledger book (mustering ledger.heads book.senders message.now) }
{
    let a = judge(message);
    match a.said {
        Err(r) => refused(r, ledger, book),
        Ok(f) => muster_framed(ledger, book, message, a.frames, f.fields),
    }
}
