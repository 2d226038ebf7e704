// The calls of boundary_commands, which tell which command a message is, for C and Rust.
ghost use Rattle.std.specs.Prelude.{◌≡◌};
ghost use Rattle.commands_page.specs.Judging.{commanded};
ghost use Rattle.boundary_crossing.specs.Numbers.{length_numbers};
ghost use Rattle.boundary_giving.specs.Given.{returned, answer_after};

// Which command the message is: answers the number of its row, in the 3 numbers of `length_numbers`.
#[unsafe(no_mangle)]
pub extern "C" fn sim0mq_command(message: &[u8], answer: &mut [u64]) -> u32
    ensures returned { result ≡ returned 3 answer.old (length_numbers (commanded message.now)) }
    ensures answered { answer.new
        ≡ answer_after 3 answer.old (length_numbers (commanded message.now)) }
{
    boundary_commands::sim0mq_command(message, answer)
}
