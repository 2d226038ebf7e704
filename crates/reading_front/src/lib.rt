// What stands before the payload of a message, judged: its length, its header, and whether there is room for its
// fields.
#![tactic(auto)]

ghost use Rattle.std.specs.Prelude.{◌≡◌};
ghost use Rattle.sim0mq.specs.Answer.{refused};
ghost use Rattle.sim0mq.specs.Views.{number_of};
ghost use Rattle.reading_header.specs.Frames.{told_as, told};
ghost use Rattle.sim0mq.specs.Message.{enough as enough_of};
ghost use Rattle.reading_front.specs.Front.{lent_of, no_frames, front_of};

use reading_header::{Frame, header};
use sim0mq::{LIMIT, ROW, Reason, refuse};

// Whether there is room for n fields in what is lent beside the message: no table, or one of so many numbers.
fn enough(lent: Option<usize>, n: usize) -> bool
    ensures { result ≡ enough_of (lent_of lent) n }
{
    match lent {
        None => true,
        Some(r) => n <= r / ROW,
    }
}

// What stands before the payload: the message's length is judged, then its header, then the room of the table that is
// lent, if one is. The header's end and the declared number of fields, with the frames; or the refusal, with no frames.
pub fn opened(message: &[u8], lent: Option<usize>) -> reading_header::Answer
    ensures { told_as result ≡ told no_frames (front_of (lent_of lent) message.now) }
{
    let none = [Frame { place: 0, code: 0 }; 8];
    if LIMIT < message.len() {
        return closed(Reason::TooLong, none);
    }
    let h = header(message, none);
    match h.said {
        Err(_) => h,
        Ok(e) => {
            if enough(lent, e.fields) {
                return h;
            }
            closed(Reason::TooShort, none)
        }
    }
}

// The refusal for this reason at 0, as a header's answer with no frames.
fn closed(reason: Reason, none: [Frame; 8]) -> reading_header::Answer
    ensures { told_as result ≡ told none (refused (number_of reason) 0) }
{
    reading_header::Answer {
        said: refuse(reason, 0),
        frames: none,
    }
}
