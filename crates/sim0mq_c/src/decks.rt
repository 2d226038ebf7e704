// The calls of boundary_ledger, which keep the deck ledger, for C and Rust.
ghost use Rattle.std.specs.Prelude.{◌≡◌};
ghost use Rattle.ledger_recordings.specs.Reckoning.{reckoning, reckoned_as};
ghost use Rattle.boundary_crossing.specs.Numbers.{length_numbers};
ghost use Rattle.boundary_giving.specs.Given.{given, returned, answer_after};
ghost use Rattle.boundary_ledger.specs.Calls.{mustering_in, place_in, decks_in, book_in, reckoned_numbers};

// Musters the message by ledger and book; answers the sender's place in the book, in the 3 numbers of `length_numbers`.
#[unsafe(no_mangle)]
pub extern "C" fn sim0mq_muster(
    decks: &mut [u16],
    book: &mut [u64],
    message: &[u8],
    answer: &mut [u64],
) -> u32
    ensures returned { result ≡ returned 3 answer.old
        (length_numbers (place_in (mustering_in decks.old book.old message.now))) }
    ensures decks { decks.new
        ≡ given 3 answer.old
        (decks_in decks.old (mustering_in decks.old book.old message.now))
        decks.old }
    ensures book { book.new
        ≡ given 3 answer.old
        (book_in book.old (mustering_in decks.old book.old message.now))
        book.old }
    ensures answered { answer.new
        ≡ answer_after 3 answer.old
        (length_numbers (place_in (mustering_in decks.old book.old message.now))) }
{
    boundary_ledger::sim0mq_muster(decks, book, message, answer)
}

// How many heads are on each deck after a recording, in the 20 numbers of `reckoned_numbers`.
#[unsafe(no_mangle)]
pub extern "C" fn sim0mq_reckon(recording: &[u8], answer: &mut [u64]) -> u32
    ensures returned { result ≡ returned 20 answer.old (reckoned_numbers (reckoned_as (reckoning recording.now))) }
    ensures answered { answer.new
        ≡ answer_after 20 answer.old (reckoned_numbers (reckoned_as (reckoning recording.now))) }
{
    boundary_ledger::sim0mq_reckon(recording, answer)
}
