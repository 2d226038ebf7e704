// The calls of boundary_exports, which read, ask and blank, for C and Rust.
ghost use Rattle.std.specs.Prelude.{◌≡◌, length};
ghost use Rattle.sim0mq.specs.Answer.{length_of};
ghost use Rattle.sim0mq.specs.Blank.{blanking, output_after};
ghost use Rattle.sim0mq.specs.Message.{no_table, table as table_of, reading as reading_of, table_after};
ghost use Rattle.reading.specs.Answers.{answered};
ghost use Rattle.asking.specs.Asking.{asked};
ghost use Rattle.asking_scalars.specs.Scalars.{value as value_of};
ghost use Rattle.boundary_crossing.specs.Numbers.{read_numbers, length_numbers, view_numbers};
ghost use Rattle.boundary_casting.specs.Casting.{value_numbers};
ghost use Rattle.boundary_giving.specs.Given.{given, returned, answer_after};

// Reads the message, and stores its rows in the table once it is accepted; answers the 21 numbers of `read_numbers`.
#[unsafe(no_mangle)]
pub extern "C" fn sim0mq_read(message: &[u8], table: &mut [u32], answer: &mut [u64]) -> u32
    ensures returned { result ≡ returned 21 answer.old
        (read_numbers (answered (reading_of (table_of (length table.old)) message.now))) }
    ensures stored { table.new
        ≡ given 21 answer.old
        (table_after table.old (reading_of (table_of (length table.old)) message.now))
        table.old }
    ensures answered { answer.new
        ≡ answer_after 21 answer.old
        (read_numbers (answered (reading_of (table_of (length table.old)) message.now))) }
{
    boundary_exports::sim0mq_read(message, table, answer)
}

// Judges the message as reading does, with no table; answers the same 21 numbers.
#[unsafe(no_mangle)]
pub extern "C" fn sim0mq_judge(message: &[u8], answer: &mut [u64]) -> u32
    ensures returned { result ≡ returned 21 answer.old (read_numbers (answered (reading_of no_table message.now))) }
    ensures answered { answer.new
        ≡ answer_after 21 answer.old (read_numbers (answered (reading_of no_table message.now))) }
{
    boundary_exports::sim0mq_judge(message, answer)
}

// The value of field k, where it is a scalar, in the 7 numbers of `value_numbers`.
#[unsafe(no_mangle)]
pub extern "C" fn sim0mq_value(message: &[u8], k: u64, answer: &mut [u64]) -> u32
    ensures returned { result ≡ returned 7 answer.old (value_numbers (value_of message.now k)) }
    ensures answered { answer.new
        ≡ answer_after 7 answer.old (value_numbers (value_of message.now k)) }
{
    boundary_exports::sim0mq_value(message, k, answer)
}

// The place of field k's first value byte, and how many there are, in the 4 numbers of `view_numbers`.
#[unsafe(no_mangle)]
pub extern "C" fn sim0mq_view(message: &[u8], k: u64, answer: &mut [u64]) -> u32
    ensures returned { result ≡ returned 4 answer.old (view_numbers (asked message.now k)) }
    ensures answered { answer.new
        ≡ answer_after 4 answer.old (view_numbers (asked message.now k)) }
{
    boundary_exports::sim0mq_view(message, k, answer)
}

// Copies the message to `out`, with zero in every payload value byte; answers its length, in the 3 numbers of
// `length_numbers`.
#[unsafe(no_mangle)]
pub extern "C" fn sim0mq_blank(message: &[u8], out: &mut [u8], answer: &mut [u64]) -> u32
    ensures returned { result ≡ returned 3 answer.old
        (length_numbers (length_of (blanking (length out.old) message.now))) }
    ensures copied { out.new
        ≡ given 3 answer.old
        (output_after out.old (blanking (length out.old) message.now))
        out.old }
    ensures answered { answer.new
        ≡ answer_after 3 answer.old
        (length_numbers (length_of (blanking (length out.old) message.now))) }
{
    boundary_exports::sim0mq_blank(message, out, answer)
}
