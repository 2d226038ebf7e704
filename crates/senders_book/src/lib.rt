// The book of senders. What it is stands in specs/, what is promised of it is proved in proofs/; here are its types and
// its two limits.
#![tactic(auto)]

// The most value bytes that a sender's id has.
pub const ID_BYTES: usize = 32;

// The places of a book.
pub const BOOK_PLACES: usize = 32;

// A sender's id: its type code, how many value bytes it has, and these, with zero after them.
#[derive(Clone, Copy)]
pub struct Id {
    pub code: usize,
    pub length: usize,
    pub bytes: [u8; ID_BYTES],
}

// A place of the book: whether a sender is held there, the last number taken from it, and its id.
#[derive(Clone, Copy)]
pub struct Sender {
    pub held: bool,
    pub number: i64,
    pub id: Id,
}

// The book: a small value that each call takes and hands back.
#[derive(Clone, Copy)]
pub struct Book {
    pub senders: [Sender; BOOK_PLACES],
}
