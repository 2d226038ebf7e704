// Looking into the book: the place of a sender, and the first that is free. The list of senders is lent to a lookup
// that finds an entry by id.
#![tactic(auto)]

ghost use Rattle.std.specs.Prelude.{◌≡◌, not, position};
ghost use Rattle.senders_book.specs.Book.{same_id, holds, place_of, free_place};

use senders_book::{BOOK_PLACES, ID_BYTES, Id, Sender};

// Whether these two are the same sender.
#[tactic(auto, using(senders_book::proofs::IdLaws::alike_slices), unfolding(senders_book::specs::Book::same_id))]
fn same(x: &Id, y: &Id) -> bool
    ensures { result ≡ same_id x.now y.now }
{
    x.code == y.code
        && x.length == y.length
        && y.length <= ID_BYTES
        && x.bytes[..y.length] == y.bytes[..y.length]
}

// Whether the place e holds this sender.
#[tactic(auto, unfolding(senders_book::specs::Book::holds))]
fn holds(e: &Sender, id: &Id) -> bool
    ensures { result ≡ holds e.now id.now }
{
    e.held && same(&e.id, id)
}

// The place in a lent list of the first entry that holds this sender.
fn find(list: &[Sender], id: &Id) -> Option<usize>
    ensures { result ≡ position (λ e. holds e id.now) list.now }
{
    list.iter().position(|e| holds(e, id))
}

// The place in a lent list of the first entry that is free.
fn find_free(list: &[Sender]) -> Option<usize>
    ensures { result ≡ position (λ e. not e.held) list.now }
{
    list.iter().position(|e| !e.held)
}

// The first place of a book that holds this sender, or the number of places where none does.
#[tactic(auto, using(senders_book::proofs::PlaceLaws::place_found))]
pub fn place_of(senders: [Sender; BOOK_PLACES], id: Id) -> usize
    ensures { result ≡ place_of senders id }
{
    find(&senders, &id).unwrap_or(BOOK_PLACES)
}

// The first free place of a book, or the number of places where none is free.
#[tactic(auto, using(senders_book::proofs::PlaceLaws::free_found))]
pub fn free_place(senders: [Sender; BOOK_PLACES]) -> usize
    ensures { result ≡ free_place senders }
{
    find_free(&senders).unwrap_or(BOOK_PLACES)
}
