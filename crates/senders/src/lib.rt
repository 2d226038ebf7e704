// The book of senders: up to 32 of them, with the last message number taken from each. A message that comes again is
// refused.
#![tactic(auto)]

ghost use Rattle.std.specs.Prelude.{◌≡◌, map, ◌≤◌, length};
ghost use Rattle.sim0mq.specs.Answer.{refused as refusal};
ghost use Rattle.sim0mq.specs.Views.{number_of, said_as, judged};
ghost use Rattle.sim0mq_numbers.specs.Numbers.{Below};
ghost use Rattle.reading_header.specs.Frames.{shown};
ghost use Rattle.senders_book.specs.Book.{id_bytes, book_places, id_of, settling, closing};
ghost use Rattle.senders_book.specs.Taking.{stamp_at, stamping, taking_framed, taking};
ghost use Rattle.senders.specs.Senders.{emptied, stamp_as, took_as, after_taking, after_closing};

use reading::judge;
use reading_fields::outline;
use reading_header::Frame;
use senders_book::{BOOK_PLACES, Book, ID_BYTES, Id, Sender};
use senders_lookup::{free_place, place_of};
use sim0mq::{Reason, Refusal, refuse};
use sim0mq_buffers::put;
use sim0mq_numbers::number;
use sim0mq_signed::i64_of;

// What taking answers, the sender's place in the book or the refusal, and the book that it hands back.
#[derive(Clone, Copy)]
pub struct Taken {
    pub said: Result<usize, Refusal>,
    pub book: Book,
}

// Whether closing found the sender held, and the book that it hands back.
#[derive(Clone, Copy)]
pub struct Closed {
    pub held: bool,
    pub book: Book,
}

// A place that is free.
const FREE: Sender = Sender {
    held: false,
    number: 0,
    id: Id {
        code: 0,
        length: 0,
        bytes: [0u8; ID_BYTES],
    },
};

// The book of no sender.
pub fn empty() -> Book
    ensures { result ≡ emptied }
{
    Book {
        senders: [FREE; BOOK_PLACES],
    }
}

// The id of this type code and these value bytes.
fn id_of(code: usize, id: &[u8]) -> Id
    requires { length id.now ≤ id_bytes }
    ensures { result ≡ id_of code id.now }
{
    let mut bytes = [0u8; ID_BYTES];
    put(id, &mut bytes, 0);
    Id {
        code,
        length: id.len(),
        bytes,
    }
}

// Where a message's sender frame and its number frame stand.
#[derive(Clone, Copy)]
struct Places {
    sender: usize,
    numbered: usize,
}

// What the book looks at in a message: where its two frames stand, the sender's type code and value bytes, and the
// number.
#[derive(Clone, Copy)]
struct Stamp<'a> {
    at: Places,
    code: usize,
    id: &'a [u8],
    number: i64,
}

// The stamp of the message whose two frames stand at these places, or the refusal of the first that is wrong.
fn stamp_at(message: &[u8], at: Places) -> Result<Stamp, Refusal>
    ensures { said_as stamp_as result ≡ stamp_at message.now at.sender at.numbered }
{
    let f = outline(message, at.sender)?;
    let g = outline(message, at.numbered)?;
    let end = f.first + f.size;
    Ok(Stamp {
        at,
        code: f.code,
        id: &message[f.first..end],
        number: i64_of(number(message, g.first, g.size) as u64),
    })
}

// The place that a sender is to have in the book for this number, where its two frames stand at these places of the
// message; or the refusal.
fn settle(senders: [Sender; BOOK_PLACES], id: Id, number: i64, at: Places) -> Result<usize, Refusal>
    ensures { (judged result ≡ settling senders id number at.sender at.numbered) × Below book_places result }
{
    let i = place_of(senders, id);
    if i < BOOK_PLACES {
        let e = senders[i];
        if e.number < number {
            return Ok(i);
        }
        return refuse(Reason::NumberNotGreater, at.numbered);
    }
    let j = free_place(senders);
    if j < BOOK_PLACES {
        return Ok(j);
    }
    refuse(Reason::BookFull, at.sender)
}

// This refusal, with the book that was taken.
fn refused(r: Refusal, book: Book) -> Taken
    ensures { took_as result ≡ after_taking book (refusal (number_of r.reason) r.place) }
{
    Taken { said: Err(r), book }
}

// Takes a message of this stamp into the book.
fn enter(book: Book, t: Stamp) -> Taken
    ensures { took_as result ≡ after_taking book (stamping book.senders (stamp_as t.entry)) }
{
    if ID_BYTES < t.id.len() {
        return Taken {
            said: refuse(Reason::IdTooLong, t.at.sender),
            book,
        };
    }
    let id = id_of(t.code, t.id);
    let mut senders = book.senders;
    match settle(senders, id, t.number, t.at) {
        Err(r) => refused(r, book),
        Ok(i) => {
            senders[i] = Sender {
                held: true,
                number: t.number,
                id,
            };
            Taken {
                said: Ok(i),
                book: Book { senders },
            }
        }
    }
}

// Takes the message into the book by its frames, as reading answers them, without reading it again: the sender's place
// in the book, and the book with its number; or the refusal, and the book as it was. Frames that do not stand in the
// message are refused as fields are that end too soon.
pub fn take_framed(book: Book, message: &[u8], frames: [Frame; 8]) -> Taken
    ensures { took_as result ≡ after_taking book (taking_framed book.senders message.now (map shown frames)) }
{
    let at = Places {
        sender: frames[2].place,
        numbered: frames[5].place,
    };
    match stamp_at(message, at) {
        Err(r) => refused(r, book),
        Ok(t) => enter(book, t),
    }
}

// Takes the message into the book: the sender's place in the book, and the book with its number; or the refusal, and
// the book as it was.
pub fn take(book: Book, message: &[u8]) -> Taken
    ensures { took_as result ≡ after_taking book (taking book.senders message.now) }
{
    let a = judge(message);
    match a.said {
        Err(r) => refused(r, book),
        Ok(_) => take_framed(book, message, a.frames),
    }
}

// Closes the sender of this type code and these value bytes: its place is free; or none was held, and the book is as it
// was.
pub fn close(book: Book, code: usize, id: &[u8]) -> Closed
    ensures { result ≡ after_closing (closing book.senders code id.now) }
{
    if ID_BYTES < id.len() {
        return Closed { held: false, book };
    }
    let name = id_of(code, id);
    let mut senders = book.senders;
    let i = place_of(senders, name);
    if i < BOOK_PLACES {
        senders[i] = FREE;
        return Closed {
            held: true,
            book: Book { senders },
        };
    }
    Closed { held: false, book }
}
