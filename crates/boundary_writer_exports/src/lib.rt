// The library's calls for C and Rust that write: a slice crosses as a pointer and a length, the writer's state as
// numbers, and an answer as numbers in a slice that the caller lends. Each returns 0 where it is granted, the refusal's
// number where it is refused, and 255 where the lent answer is too short; then nothing is written.
#![tactic(auto, unfolding(boundary_giving::specs::Given::given, boundary_giving::specs::Given::returned, boundary_giving::specs::Given::answer_after, crate::specs::Calls::open_numbers, crate::specs::Calls::opened_in, crate::specs::Calls::add_numbers, crate::specs::Calls::added_in, crate::specs::Calls::close_numbers))]

ghost use Rattle.std.specs.Prelude.{◌≡◌, length};
ghost use Rattle.writing.specs.Writing.{asks_for, encoded, scalar};
ghost use Rattle.boundary_writer_crossing.specs.States.{writer_of, count_type};
ghost use Rattle.boundary_casting.specs.Casting.{mark_from, scalar_from};
ghost use Rattle.boundary_giving.specs.Given.{given, returned, answer_after};
ghost use Rattle.boundary_writer_exports.specs.Calls.{open_numbers, opened_in, add_numbers, added_in, close_numbers};

use boundary_casting::scalar_from;
use boundary_giving::TOO_SHORT;
use boundary_writer_crossing::{count_type, give_wrote, writer_of};
use sim0mq_kinds::Mark;
use writing::Writer;

// How many numbers a call answers.
const NUMBERS: usize = 7;

// Opens a message in `out`, with the type `kind` of its count where `stated` is not 0; answers the bytes written so far
// and the writer's state, in the 7 numbers of `wrote_numbers`.
pub fn sim0mq_open(
    ids: &[u8],
    number: i64,
    status: u8,
    fields: u64,
    stated: u8,
    kind: u8,
    out: &mut [u8],
    answer: &mut [u64],
) -> u32
    ensures returned { result ≡ returned 7 answer.old
        (open_numbers (asks_for ids.now number status fields (count_type stated kind)) (length out.old)) }
    ensures written { out.new
        ≡ given 7 answer.old
        (opened_in (asks_for ids.now number status fields (count_type stated kind)) out.old)
        out.old }
    ensures answered { answer.new
        ≡ answer_after 7 answer.old
        (open_numbers (asks_for ids.now number status fields (count_type stated kind)) (length out.old)) }
{
    if answer.len() < NUMBERS {
        return TOO_SHORT;
    }
    let w = Writer::open(
        ids,
        number,
        status,
        fields as usize,
        count_type(stated, kind),
        out,
    );
    give_wrote(w, answer)
}

// Adds an encoded field to the state of these numbers; answers as opening does.
pub fn sim0mq_add(
    written: u64,
    declared: u64,
    added: u64,
    closed: u8,
    field: &[u8],
    out: &mut [u8],
    answer: &mut [u64],
) -> u32
    ensures returned { result ≡ returned 7 answer.old
        (add_numbers (writer_of written declared added closed) (length out.old) (encoded field.now)) }
    ensures written { out.new
        ≡ given 7 answer.old
        (added_in (writer_of written declared added closed) out.old (encoded field.now))
        out.old }
    ensures answered { answer.new
        ≡ answer_after 7 answer.old
        (add_numbers (writer_of written declared added closed) (length out.old) (encoded field.now)) }
{
    if answer.len() < NUMBERS {
        return TOO_SHORT;
    }
    let w = writer_of(written, declared, added, closed).add(field, out);
    give_wrote(w, answer)
}

// Adds a scalar of this kind, these bits and this mark to the state of these numbers; answers as opening does.
pub fn sim0mq_add_scalar(
    written: u64,
    declared: u64,
    added: u64,
    closed: u8,
    kind: u8,
    bits: u64,
    unit: u8,
    currency: u16,
    display: u8,
    out: &mut [u8],
    answer: &mut [u64],
) -> u32
    ensures returned { result ≡ returned 7 answer.old
        (add_numbers (writer_of written declared added closed) (length out.old) (scalar (scalar_from kind bits (mark_from unit currency display)))) }
    ensures written { out.new
        ≡ given 7 answer.old
        (added_in (writer_of written declared added closed) out.old (scalar (scalar_from kind bits (mark_from unit currency display))))
        out.old }
    ensures answered { answer.new
        ≡ answer_after 7 answer.old
        (add_numbers (writer_of written declared added closed) (length out.old) (scalar (scalar_from kind bits (mark_from unit currency display)))) }
{
    if answer.len() < NUMBERS {
        return TOO_SHORT;
    }
    let mark = Mark {
        unit,
        currency,
        display,
    };
    let value = scalar_from(kind, bits, mark);
    let w = writer_of(written, declared, added, closed).add_scalar(value, out);
    give_wrote(w, answer)
}

// Closes the message of the state of these numbers; answers as opening does.
pub fn sim0mq_close(written: u64, declared: u64, added: u64, closed: u8, answer: &mut [u64]) -> u32
    ensures returned { result ≡ returned 7 answer.old (close_numbers (writer_of written declared added closed)) }
    ensures answered { answer.new
        ≡ answer_after 7 answer.old (close_numbers (writer_of written declared added closed)) }
{
    let w = writer_of(written, declared, added, closed).close();
    give_wrote(w, answer)
}
