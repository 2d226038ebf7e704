// The library's calls for C and Rust that keep the deck ledger: ledger and book cross as lent slices of numbers that a
// call takes and leaves, and an answer as numbers in a slice that the caller lends. Each returns 0 where it is granted,
// the refusal's number where it is refused, and 255 where the lent answer is too short; then nothing is written.
#![tactic(auto, unfolding(boundary_giving::specs::Given::given, boundary_giving::specs::Given::returned, boundary_giving::specs::Given::answer_after))]

ghost use Rattle.std.specs.Prelude.{◌≡◌, ◌≤◌, ◌<◌, length, get_or};
ghost use Rattle.sim0mq.specs.Table.{stored};
ghost use Rattle.sim0mq.specs.Views.{judged};
ghost use Rattle.ledger_decks.specs.Decks.{deck_count};
ghost use Rattle.ledger_recordings.specs.Reckoning.{reckoning, comes_as, reckoned_as};
ghost use Rattle.boundary_crossing.specs.Numbers.{length_numbers};
ghost use Rattle.boundary_giving.specs.Given.{given, returned, answer_after};
ghost use Rattle.boundary_ledger.specs.Calls.{ledger_of, mustering_in, place_in, decks_in, book_in, said_numbers, reckoned_numbers};

use boundary_books::{BOOK, book_of, put_book};
use boundary_crossing::give_length;
use boundary_giving::{TOO_SHORT, give};
use ledger::muster;
use ledger_decks::{DECKS, Ledger};
use ledger_recordings::{Reckoned, reckon};
use sim0mq::{Reason, Refusal, refuse};

// How many numbers mustering answers.
const MUSTER: usize = 3;

// The ledger of these heads.
fn ledger_of(decks: &[u16]) -> Ledger
    requires { deck_count ≤ length decks.now }
    ensures { result ≡ ledger_of decks.now }
{
    let mut heads = [0u16; DECKS];
    heads.copy_from_slice(&decks[..DECKS]);
    Ledger { heads }
}

// The heads at the front of `decks`.
#[tactic(auto, unfolding(sim0mq::specs::Table::stored))]
fn put_decks(heads: [u16; DECKS], decks: &mut [u16])
    requires { deck_count ≤ length decks.old }
    ensures { decks.new ≡ stored decks.old heads }
{
    decks[..DECKS].copy_from_slice(&heads);
}

// Musters the message by the ledger and the book of these numbers: the sender's place in the book, or the refusal.
#[tactic(auto, unfolding(crate::specs::Calls::mustering_in, crate::specs::Calls::decks_in, crate::specs::Calls::book_in))]
fn muster_in(decks: &mut [u16], book: &mut [u64], message: &[u8]) -> Result<usize, Refusal>
    ensures answer { judged result ≡ place_in (mustering_in decks.old book.old message.now) }
    ensures decks { decks.new
        ≡ decks_in decks.old (mustering_in decks.old book.old message.now) }
    ensures book { book.new
        ≡ book_in book.old (mustering_in decks.old book.old message.now) }
{
    if decks.len() < DECKS || book.len() < BOOK {
        return refuse(Reason::TooShort, 0);
    }
    let m = muster(ledger_of(decks), book_of(book), message);
    let place = m.said?;
    put_decks(m.ledger.heads, decks);
    put_book(m.book, book);
    Ok(place)
}

// The numbers of what a recording comes to.
fn reckoned_numbers(said: Result<usize, Refusal>, passed: usize, heads: [u16; DECKS]) -> [u64; 20]
    ensures numbers { result ≡ said_numbers (judged said) passed heads }
    ensures small { get_or result 0 0 < 4294967296 }
{
    match said {
        Err(r) => {
            let mut numbers = [0u64; 20];
            numbers[0] = r.reason.number() as u64;
            numbers[1] = r.place as u64;
            numbers
        }
        Ok(n) => [
            0,
            0,
            n as u64,
            passed as u64,
            heads[0] as u64,
            heads[1] as u64,
            heads[2] as u64,
            heads[3] as u64,
            heads[4] as u64,
            heads[5] as u64,
            heads[6] as u64,
            heads[7] as u64,
            heads[8] as u64,
            heads[9] as u64,
            heads[10] as u64,
            heads[11] as u64,
            heads[12] as u64,
            heads[13] as u64,
            heads[14] as u64,
            heads[15] as u64,
        ],
    }
}

// Stores the 20 numbers of what a recording comes to in `answer`, and returns the first of them; 255, and nothing is
// stored, where `answer` is too short.
fn give_reckoned(r: Reckoned, answer: &mut [u64]) -> u32
    ensures returned { result ≡ returned 20 answer.old (reckoned_numbers (comes_as r)) }
    ensures answered { answer.new ≡ answer_after 20 answer.old (reckoned_numbers (comes_as r)) }
{
    let numbers = reckoned_numbers(r.said, r.refused, r.ledger.heads);
    give(&numbers, answer) as u32
}

// Musters the message by ledger and book; answers the sender's place in the book, in the 3 numbers of `length_numbers`.
pub fn sim0mq_muster(decks: &mut [u16], book: &mut [u64], message: &[u8], answer: &mut [u64]) -> u32
    ensures returned { result ≡ returned 3 answer.old
        (length_numbers (place_in (mustering_in decks.old book.old message.now))) }
    ensures decks { decks.new
        ≡ given 3 answer.old
        (decks_in decks.old (mustering_in decks.old book.old message.now))
        decks.old }
    ensures book { book.new
        ≡ given 3 answer.old
        (book_in book.old (mustering_in decks.old book.old message.now))
        book.old }
    ensures answered { answer.new
        ≡ answer_after 3 answer.old
        (length_numbers (place_in (mustering_in decks.old book.old message.now))) }
{
    if answer.len() < MUSTER {
        return TOO_SHORT;
    }
    give_length(muster_in(decks, book, message), answer)
}

// How many heads are on each deck after a recording, in the 20 numbers of `reckoned_numbers`.
pub fn sim0mq_reckon(recording: &[u8], answer: &mut [u64]) -> u32
    ensures returned { result ≡ returned 20 answer.old (reckoned_numbers (reckoned_as (reckoning recording.now))) }
    ensures answered { answer.new
        ≡ answer_after 20 answer.old (reckoned_numbers (reckoned_as (reckoning recording.now))) }
{
    give_reckoned(reckon(recording), answer)
}
