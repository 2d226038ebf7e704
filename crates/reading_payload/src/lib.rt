// The payload: a part of a message that is read by itself.
#![tactic(auto)]

ghost use Rattle.std.specs.Prelude.{◌≡◌, ◌+◌, length};
ghost use Rattle.sim0mq.specs.Views.{judged};
ghost use Rattle.sim0mq_numbers.specs.Numbers.{Below};
ghost use Rattle.reading_payload.specs.Parts.{payload_steps};
ghost use Rattle.reading_payload.specs.Kept.{kept_of};

use reading_parts::part;
use sim0mq::{Reason, Refusal, refuse};

// A caller keeps the rows of up to so many fields in a small array, since an array is cleared when it is made.
pub const FEW: usize = 8;

// The payload of n fields that begins at `next` of the message: its steps, one for each field and each mark, and no
// more than the message's bytes; or the refusal. The rows of the fields from field k on are kept, as far as there is
// room, up to the first fault.
pub fn payload(
    message: &[u8],
    next: usize,
    n: usize,
    k: usize,
    kept: &mut [u32],
) -> Result<usize, Refusal>
    ensures answer { (judged result ≡ payload_steps message.now next n)
        × Below (length message.now + 1) result }
    ensures kept { kept.new ≡ kept_of message.now next n k kept.old }
{
    if message.len() < next {
        return refuse(Reason::BytesEnd, message.len());
    }
    match part(&message[next..], next, n, k, kept) {
        Ok(steps) => Ok(steps),
        Err(r) => refuse(r.reason, next + r.place),
    }
}
