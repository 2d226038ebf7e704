// The library's calls for C and Rust that write a recording: a slice crosses as a pointer and a length, the recorder's
// state as numbers, and an answer as numbers in a slice that the caller lends. Each returns 0 where it is granted, the
// refusal's number where it is refused, and 255 where the lent answer is too short; then nothing is written.
#![tactic(auto)]

ghost use Rattle.std.specs.Prelude.{◌≡◌, ◌<◌, length, get_or};
ghost use Rattle.recordings_writing.specs.Recorder.{told_as};
ghost use Rattle.boundary_giving.specs.Given.{given, returned, answer_after};
ghost use Rattle.boundary_recorder.specs.Numbers.{recorder_of, recorded_numbers, add_numbers, added_in, close_numbers, closed_in};

use boundary_giving::{TOO_SHORT, give};
use recordings_writing::{Recorded, Recorder};

// How many numbers each call answers.
const ADD: usize = 6;

const CLOSE: usize = 6;

// The recorder's state of these numbers.
fn recorder_of(written: u64, messages: u64, closed: u8) -> Recorder
    ensures { result ≡ recorder_of written messages closed }
{
    Recorder {
        written: written as usize,
        messages: messages as usize,
        closed: closed != 0,
    }
}

// The numbers of what a call of the recorder answers, and of the state that it hands back.
#[tactic(auto, using(boundary_casting::proofs::ScalarLaws::truth_number))]
fn recorded_numbers(r: Recorded) -> [u64; 6]
    ensures numbers { result ≡ recorded_numbers (told_as r) }
    ensures small { get_or result 0 0 < 4294967296 }
{
    let written = r.recorder.written as u64;
    let messages = r.recorder.messages as u64;
    let closed = r.recorder.closed as u64;
    match r.said {
        Err(f) => [
            f.reason.number() as u64,
            f.place as u64,
            0,
            written,
            messages,
            closed,
        ],
        Ok(n) => [0, 0, n as u64, written, messages, closed],
    }
}

// Stores the 6 numbers of what a call of the recorder answers in `answer`, and returns the first of them; 255, and
// nothing is stored, where `answer` is too short.
#[tactic(auto, using(boundary_giving::proofs::GivenLaws::returned_small))]
fn give_recorded(r: Recorded, answer: &mut [u64]) -> u32
    ensures returned { result ≡ returned 6 answer.old (recorded_numbers (told_as r)) }
    ensures answered { answer.new
        ≡ answer_after 6 answer.old (recorded_numbers (told_as r)) }
{
    let numbers = recorded_numbers(r);
    give(&numbers, answer) as u32
}

// Adds a message to the recording of the state of these numbers, in `out`; answers the bytes written so far and the
// state, in the 6 numbers of `recorded_numbers`.
#[tactic(auto, unfolding(boundary_giving::specs::Given::given, boundary_giving::specs::Given::returned, boundary_giving::specs::Given::answer_after, crate::specs::Numbers::add_numbers, crate::specs::Numbers::added_in))]
pub fn sim0mq_recording_add(
    written: u64,
    messages: u64,
    closed: u8,
    message: &[u8],
    out: &mut [u8],
    answer: &mut [u64],
) -> u32
    ensures returned { result ≡ returned 6 answer.old
        (add_numbers (recorder_of written messages closed) (length out.old) message.now) }
    ensures written { out.new
        ≡ given 6 answer.old
        (added_in (recorder_of written messages closed) out.old message.now)
        out.old }
    ensures answered { answer.new
        ≡ answer_after 6 answer.old
        (add_numbers (recorder_of written messages closed) (length out.old) message.now) }
{
    if answer.len() < ADD {
        return TOO_SHORT;
    }
    let r = recorder_of(written, messages, closed).add(message, out);
    give_recorded(r, answer)
}

// Closes the recording of the state of these numbers, in `out`; answers as adding does.
#[tactic(auto, unfolding(boundary_giving::specs::Given::given, boundary_giving::specs::Given::returned, boundary_giving::specs::Given::answer_after, crate::specs::Numbers::close_numbers, crate::specs::Numbers::closed_in))]
pub fn sim0mq_recording_close(
    written: u64,
    messages: u64,
    closed: u8,
    out: &mut [u8],
    answer: &mut [u64],
) -> u32
    ensures returned { result ≡ returned 6 answer.old (close_numbers (recorder_of written messages closed) out.old) }
    ensures written { out.new
        ≡ given 6 answer.old
        (closed_in (recorder_of written messages closed) out.old)
        out.old }
    ensures answered { answer.new
        ≡ answer_after 6 answer.old
        (close_numbers (recorder_of written messages closed) out.old) }
{
    if answer.len() < CLOSE {
        return TOO_SHORT;
    }
    let r = recorder_of(written, messages, closed).close(out);
    give_recorded(r, answer)
}
