// Answers of reading, asking and blanking as numbers, stored in the answer that a caller lends: what the calls for C
// and Rust hand over.
#![tactic(auto)]

ghost use Rattle.std.specs.Prelude.{◌≡◌, ◌<◌, get_or};
ghost use mathlib.Core.List.{flat_map};
ghost use Rattle.sim0mq.specs.Views.{said_as, judged};
ghost use Rattle.reading.specs.Answers.{answer_as};
ghost use Rattle.reading_fields.specs.Items.{fielded};
ghost use Rattle.boundary_crossing.specs.Numbers.{frame_numbers, said_numbers, read_numbers, length_numbers, view_numbers};
ghost use Rattle.boundary_giving.specs.Given.{returned, answer_after};

use boundary_giving::give;
use reading::{Answer, Found};
use reading_fields::Field;
use reading_header::Frame;
use sim0mq::Refusal;

// The numbers of what reading answers.
fn read_numbers(said: Result<Found, Refusal>, frames: [Frame; 8]) -> [u64; 21]
    ensures numbers { result ≡ said_numbers (said_as (λ f. f) said) (flat_map frame_numbers frames) }
    ensures small { get_or result 0 0 < 4294967296 }
{
    match said {
        Err(r) => {
            let mut numbers = [0u64; 21];
            numbers[0] = r.reason.number() as u64;
            numbers[1] = r.place as u64;
            numbers
        }
        Ok(found) => [
            0,
            0,
            found.length as u64,
            found.fields as u64,
            found.steps as u64,
            frames[0].place as u64,
            frames[0].code as u64,
            frames[1].place as u64,
            frames[1].code as u64,
            frames[2].place as u64,
            frames[2].code as u64,
            frames[3].place as u64,
            frames[3].code as u64,
            frames[4].place as u64,
            frames[4].code as u64,
            frames[5].place as u64,
            frames[5].code as u64,
            frames[6].place as u64,
            frames[6].code as u64,
            frames[7].place as u64,
            frames[7].code as u64,
        ],
    }
}

// The numbers of a length.
fn length_numbers(said: Result<usize, Refusal>) -> [u64; 3]
    ensures numbers { result ≡ length_numbers (judged said) }
    ensures small { get_or result 0 0 < 4294967296 }
{
    match said {
        Err(r) => [r.reason.number() as u64, r.place as u64, 0],
        Ok(n) => [0, 0, n as u64],
    }
}

// The numbers of the view that asking finds.
fn view_numbers(found: Result<Field, Refusal>) -> [u64; 4]
    ensures numbers { result ≡ view_numbers (fielded found) }
    ensures small { get_or result 0 0 < 4294967296 }
{
    match found {
        Err(r) => [r.reason.number() as u64, r.place as u64, 0, 0],
        Ok(f) => [0, 0, f.first as u64, f.size as u64],
    }
}

// Stores the 21 numbers of what reading answers in `answer`, and returns the first of them; 255, and nothing is stored,
// where `answer` is too short.
pub fn give_read(a: Answer, answer: &mut [u64]) -> u32
    ensures returned { result ≡ returned 21 answer.old (read_numbers (answer_as a)) }
    ensures answered { answer.new ≡ answer_after 21 answer.old (read_numbers (answer_as a)) }
{
    let numbers = read_numbers(a.said, a.frames);
    give(&numbers, answer) as u32
}

// Stores the 3 numbers of a length, in the same way.
pub fn give_length(said: Result<usize, Refusal>, answer: &mut [u64]) -> u32
    ensures returned { result ≡ returned 3 answer.old (length_numbers (judged said)) }
    ensures answered { answer.new ≡ answer_after 3 answer.old (length_numbers (judged said)) }
{
    let numbers = length_numbers(said);
    give(&numbers, answer) as u32
}

// Stores the 4 numbers of the view that asking finds, in the same way.
pub fn give_view(found: Result<Field, Refusal>, answer: &mut [u64]) -> u32
    ensures returned { result ≡ returned 4 answer.old (view_numbers (fielded found)) }
    ensures answered { answer.new ≡ answer_after 4 answer.old (view_numbers (fielded found)) }
{
    let numbers = view_numbers(found);
    give(&numbers, answer) as u32
}
