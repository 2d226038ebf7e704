// The library's calls for C and Rust that keep a book of senders: the book crosses as a lent slice of numbers that each
// call takes and leaves, and an answer as numbers in a slice that the caller lends. Each returns 0 where it is granted,
// the refusal's number where it is refused, and 255 where the lent answer is too short; then nothing is written.
#![tactic(auto, unfolding(boundary_giving::specs::Given::given, boundary_giving::specs::Given::returned, boundary_giving::specs::Given::answer_after))]

ghost use Rattle.std.specs.Prelude.{◌≡◌};
ghost use Rattle.sim0mq.specs.Views.{judged};
ghost use Rattle.boundary_crossing.specs.Numbers.{length_numbers};
ghost use Rattle.boundary_giving.specs.Given.{given, returned, answer_after};
ghost use Rattle.boundary_senders.specs.Calls.{taking_in, place_in, taken_in, closing_in, held_in, closed_in};

use boundary_books::{BOOK, book_of, put_book};
use boundary_crossing::give_length;
use boundary_giving::TOO_SHORT;
use senders::{close, take};
use sim0mq::{Reason, Refusal, refuse};

// How many numbers each call answers.
const TAKE: usize = 3;

const CLOSE: usize = 3;

// Takes the message into the book of these numbers: the sender's place, or the refusal.
#[tactic(auto, unfolding(crate::specs::Calls::taking_in, crate::specs::Calls::taken_in))]
fn take_in(book: &mut [u64], message: &[u8]) -> Result<usize, Refusal>
    ensures answer { judged result ≡ place_in (taking_in book.old message.now) }
    ensures left { book.new
        ≡ taken_in book.old (taking_in book.old message.now) }
{
    if book.len() < BOOK {
        return refuse(Reason::TooShort, 0);
    }
    let taken = take(book_of(book), message);
    let place = taken.said?;
    put_book(taken.book, book);
    Ok(place)
}

// Closes the sender in the book of these numbers: 1 where it was held and 0 where not, or the refusal.
#[tactic(auto, unfolding(crate::specs::Calls::closing_in, crate::specs::Calls::closed_in))]
fn close_in(book: &mut [u64], code: usize, id: &[u8]) -> Result<usize, Refusal>
    ensures answer { judged result ≡ held_in (closing_in book.old code id.now) }
    ensures left { book.new
        ≡ closed_in book.old (closing_in book.old code id.now) }
{
    if book.len() < BOOK {
        return refuse(Reason::TooShort, 0);
    }
    let closed = close(book_of(book), code, id);
    if closed.held {
        put_book(closed.book, book);
    }
    Ok(closed.held as usize)
}

// Takes the message into the book; answers the sender's place, in the 3 numbers of `length_numbers`.
pub fn sim0mq_take(book: &mut [u64], message: &[u8], answer: &mut [u64]) -> u32
    ensures returned { result ≡ returned 3 answer.old
        (length_numbers (place_in (taking_in book.old message.now))) }
    ensures left { book.new
        ≡ given 3 answer.old
        (taken_in book.old (taking_in book.old message.now))
        book.old }
    ensures answered { answer.new
        ≡ answer_after 3 answer.old
        (length_numbers (place_in (taking_in book.old message.now))) }
{
    if answer.len() < TAKE {
        return TOO_SHORT;
    }
    give_length(take_in(book, message), answer)
}

// Closes the sender of this type code and these value bytes; answers whether it was held, in the same numbers.
pub fn sim0mq_close_sender(book: &mut [u64], code: u64, id: &[u8], answer: &mut [u64]) -> u32
    ensures returned { result ≡ returned 3 answer.old
        (length_numbers (held_in (closing_in book.old code id.now))) }
    ensures left { book.new
        ≡ given 3 answer.old
        (closed_in book.old (closing_in book.old code id.now))
        book.old }
    ensures answered { answer.new
        ≡ answer_after 3 answer.old
        (length_numbers (held_in (closing_in book.old code id.now))) }
{
    if answer.len() < CLOSE {
        return TOO_SHORT;
    }
    give_length(close_in(book, code as usize, id), answer)
}
