// The library's call for C and Rust that tells which command a message is: it answers as the other calls do, in numbers
// that it stores in a slice that the caller lends.
#![tactic(auto)]

ghost use Rattle.std.specs.Prelude.{◌≡◌};
ghost use Rattle.sim0mq.specs.Views.{judged};
ghost use Rattle.commands_page.specs.Judging.{commanded};
ghost use Rattle.commands.specs.Names.{number_of};
ghost use Rattle.boundary_crossing.specs.Numbers.{length_numbers};
ghost use Rattle.boundary_giving.specs.Given.{returned, answer_after};

use boundary_crossing::give_length;
use commands::{Name, command};
use sim0mq::Refusal;

// The number of a command's row.
fn number_of(name: Name) -> usize
    ensures { result ≡ number_of name }
{
    name as usize
}

// The number of the row of the command that the message is, or the refusal.
fn numbered(message: &[u8]) -> Result<usize, Refusal>
    ensures { judged result ≡ commanded message.now }
{
    Ok(number_of(command(message)?))
}

// Which command the message is: answers the number of its row, in the 3 numbers of `length_numbers`.
pub fn sim0mq_command(message: &[u8], answer: &mut [u64]) -> u32
    ensures returned { result ≡ returned 3 answer.old (length_numbers (commanded message.now)) }
    ensures answered { answer.new
        ≡ answer_after 3 answer.old (length_numbers (commanded message.now)) }
{
    give_length(numbered(message), answer)
}
