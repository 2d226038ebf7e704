// The book of senders as numbers that a caller from C or Rust keeps: read from a lent slice, and put into one.
#![tactic(auto)]

ghost use Rattle.std.specs.Prelude.{◌≡◌, ◌+◌, ◌≤◌, ◌<◌, length, get_or};
ghost use Rattle.sim0mq.specs.Table.{placed};
ghost use Rattle.sim0mq_buffers.specs.Placing.{put_in};
ghost use Rattle.sim0mq_numbers.specs.Numbers.{number_at};
ghost use Rattle.boundary_books.specs.Books.{sender_numbers, id_bytes_of, sender_at, book_of, book_numbers};

use senders_book::{BOOK_PLACES, Book, ID_BYTES, Id, Sender};
use sim0mq_numbers::number;
use sim0mq_signed::i64_of;
use writing_puts::{bits, put_big};

// How many numbers a place of the book has, and how many the book.
const PLACE: usize = 8;

pub const BOOK: usize = 256;

// Number i of a slice; 0 past its end.
fn number_in(numbers: &[u64], i: usize) -> u64
    ensures { result ≡ get_or numbers.now i 0 }
{
    numbers.get(i).copied().unwrap_or(0)
}

// The bytes of an id that are in these four numbers.
#[tactic(auto, using(crate::proofs::ReadLaws::bytes_put))]
fn id_bytes_of(a: u64, b: u64, c: u64, d: u64) -> [u8; ID_BYTES]
    ensures { result ≡ id_bytes_of a b c d }
{
    let mut bytes = [0u8; ID_BYTES];
    put_big(&mut bytes, 0, 8, a);
    put_big(&mut bytes, 8, 8, b);
    put_big(&mut bytes, 16, 8, c);
    put_big(&mut bytes, 24, 8, d);
    bytes
}

// The id of the six numbers from `at` on.
#[tactic(auto, unfolding(crate::specs::Books::sender_at))]
fn id_at(numbers: &[u64], at: usize) -> Id
    requires { at < 256 }
    ensures { result ≡ (sender_at numbers.now at).id }
{
    let bytes = id_bytes_of(
        number_in(numbers, at + 4),
        number_in(numbers, at + 5),
        number_in(numbers, at + 6),
        number_in(numbers, at + 7),
    );
    Id {
        code: number_in(numbers, at + 2) as usize,
        length: number_in(numbers, at + 3) as usize,
        bytes,
    }
}

// The place of the eight numbers from `at` on.
#[tactic(auto, unfolding(crate::specs::Books::sender_at))]
fn sender_at(numbers: &[u64], at: usize) -> Sender
    requires { at < 256 }
    ensures { result ≡ sender_at numbers.now at }
{
    let id = id_at(numbers, at);
    Sender {
        held: number_in(numbers, at) != 0,
        number: i64_of(number_in(numbers, at + 1)),
        id,
    }
}

// The book of these numbers, where those past the end are 0.
pub fn book_of(numbers: &[u64]) -> Book
    ensures { result ≡ book_of numbers.now }
{
    let mut book = senders::empty();
    for (i, place) in book.senders.iter_mut().enumerate() {
        *place = sender_at(numbers, PLACE * i);
    }
    book
}

// Eight of an id's bytes, from `at` on, in one number.
fn word(bytes: [u8; ID_BYTES], at: usize) -> u64
    ensures { result ≡ number_at bytes at 8 }
{
    number(&bytes, at, 8) as u64
}

// The numbers of a place.
#[tactic(auto, using(crate::proofs::PutLaws::numbers_made))]
fn sender_numbers(e: Sender) -> [u64; PLACE]
    ensures { result ≡ sender_numbers e }
{
    let id = e.id;
    let bytes = id.bytes;
    [
        e.held as u64,
        bits(e.number, u64::MAX),
        id.code as u64,
        id.length as u64,
        word(bytes, 0),
        word(bytes, 8),
        word(bytes, 16),
        word(bytes, 24),
    ]
}

// The numbers of a book at the front of `numbers`, where there is room for them.
pub fn put_book(book: Book, numbers: &mut [u64])
    ensures { numbers.new ≡ put_in numbers.old 0 (book_numbers book.senders) }
{
    if numbers.len() < BOOK {
        return;
    }
    for (i, e) in book.senders.iter().enumerate() {
        let at = PLACE * i;
        numbers[at..at + PLACE].copy_from_slice(&sender_numbers(*e));
    }
}
