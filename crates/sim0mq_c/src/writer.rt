// The calls of boundary_writer_exports, which write a message, for C and Rust.
ghost use Rattle.std.specs.Prelude.{◌≡◌, length};
ghost use Rattle.writing.specs.Writing.{asks_for, encoded, scalar};
ghost use Rattle.boundary_writer_crossing.specs.States.{writer_of, count_type};
ghost use Rattle.boundary_casting.specs.Casting.{mark_from, scalar_from};
ghost use Rattle.boundary_giving.specs.Given.{given, returned, answer_after};
ghost use Rattle.boundary_writer_exports.specs.Calls.{open_numbers, opened_in, add_numbers, added_in, close_numbers};

// Opens a message in `out`, with the type `kind` of its count where `stated` is not 0; answers the bytes written so far
// and the writer's state, in the 7 numbers of `wrote_numbers`.
#[unsafe(no_mangle)]
pub extern "C" fn sim0mq_open(
    ids: &[u8],
    number: i64,
    status: u8,
    fields: u64,
    stated: u8,
    kind: u8,
    out: &mut [u8],
    answer: &mut [u64],
) -> u32
    ensures returned { result ≡ returned 7 answer.old
        (open_numbers (asks_for ids.now number status fields (count_type stated kind)) (length out.old)) }
    ensures written { out.new
        ≡ given 7 answer.old
        (opened_in (asks_for ids.now number status fields (count_type stated kind)) out.old)
        out.old }
    ensures answered { answer.new
        ≡ answer_after 7 answer.old
        (open_numbers (asks_for ids.now number status fields (count_type stated kind)) (length out.old)) }
{
    boundary_writer_exports::sim0mq_open(ids, number, status, fields, stated, kind, out, answer)
}

// Adds an encoded field to the state of these numbers; answers as opening does.
#[unsafe(no_mangle)]
pub extern "C" fn sim0mq_add(
    written: u64,
    declared: u64,
    added: u64,
    closed: u8,
    field: &[u8],
    out: &mut [u8],
    answer: &mut [u64],
) -> u32
    ensures returned { result ≡ returned 7 answer.old
        (add_numbers (writer_of written declared added closed) (length out.old) (encoded field.now)) }
    ensures written { out.new
        ≡ given 7 answer.old
        (added_in (writer_of written declared added closed) out.old (encoded field.now))
        out.old }
    ensures answered { answer.new
        ≡ answer_after 7 answer.old
        (add_numbers (writer_of written declared added closed) (length out.old) (encoded field.now)) }
{
    boundary_writer_exports::sim0mq_add(written, declared, added, closed, field, out, answer)
}

// Adds a scalar of this kind, these bits and this mark to the state of these numbers; answers as opening does.
#[unsafe(no_mangle)]
pub extern "C" fn sim0mq_add_scalar(
    written: u64,
    declared: u64,
    added: u64,
    closed: u8,
    kind: u8,
    bits: u64,
    unit: u8,
    currency: u16,
    display: u8,
    out: &mut [u8],
    answer: &mut [u64],
) -> u32
    ensures returned { result ≡ returned 7 answer.old
        (add_numbers (writer_of written declared added closed) (length out.old) (scalar (scalar_from kind bits (mark_from unit currency display)))) }
    ensures written { out.new
        ≡ given 7 answer.old
        (added_in (writer_of written declared added closed) out.old (scalar (scalar_from kind bits (mark_from unit currency display))))
        out.old }
    ensures answered { answer.new
        ≡ answer_after 7 answer.old
        (add_numbers (writer_of written declared added closed) (length out.old) (scalar (scalar_from kind bits (mark_from unit currency display)))) }
{
    boundary_writer_exports::sim0mq_add_scalar(
        written, declared, added, closed, kind, bits, unit, currency, display, out, answer,
    )
}

// Closes the message of the state of these numbers; answers as opening does.
#[unsafe(no_mangle)]
pub extern "C" fn sim0mq_close(
    written: u64,
    declared: u64,
    added: u64,
    closed: u8,
    answer: &mut [u64],
) -> u32
    ensures returned { result ≡ returned 7 answer.old (close_numbers (writer_of written declared added closed)) }
    ensures answered { answer.new
        ≡ answer_after 7 answer.old (close_numbers (writer_of written declared added closed)) }
{
    boundary_writer_exports::sim0mq_close(written, declared, added, closed, answer)
}
