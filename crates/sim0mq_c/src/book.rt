// The calls of boundary_senders, which keep a book of senders, for C and Rust.
ghost use Rattle.std.specs.Prelude.{◌≡◌};
ghost use Rattle.boundary_crossing.specs.Numbers.{length_numbers};
ghost use Rattle.boundary_giving.specs.Given.{given, returned, answer_after};
ghost use Rattle.boundary_senders.specs.Calls.{taking_in, place_in, taken_in, closing_in, held_in, closed_in};

// Takes the message into the book; answers the sender's place, in the 3 numbers of `length_numbers`.
#[unsafe(no_mangle)]
pub extern "C" fn sim0mq_take(book: &mut [u64], message: &[u8], answer: &mut [u64]) -> u32
    ensures returned { result ≡ returned 3 answer.old
        (length_numbers (place_in (taking_in book.old message.now))) }
    ensures left { book.new
        ≡ given 3 answer.old
        (taken_in book.old (taking_in book.old message.now))
        book.old }
    ensures answered { answer.new
        ≡ answer_after 3 answer.old
        (length_numbers (place_in (taking_in book.old message.now))) }
{
    boundary_senders::sim0mq_take(book, message, answer)
}

// Closes the sender of this type code and these value bytes; answers whether it was held, in the same numbers.
#[unsafe(no_mangle)]
pub extern "C" fn sim0mq_close_sender(
    book: &mut [u64],
    code: u64,
    id: &[u8],
    answer: &mut [u64],
) -> u32
    ensures returned { result ≡ returned 3 answer.old
        (length_numbers (held_in (closing_in book.old code id.now))) }
    ensures left { book.new
        ≡ given 3 answer.old
        (closed_in book.old (closing_in book.old code id.now))
        book.old }
    ensures answered { answer.new
        ≡ answer_after 3 answer.old
        (length_numbers (held_in (closing_in book.old code id.now))) }
{
    boundary_senders::sim0mq_close_sender(book, code, id, answer)
}
