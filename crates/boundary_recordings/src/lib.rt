// The library's calls for C and Rust that open recordings, ask for a message of one, and salvage a cut one: a slice
// crosses as a pointer and a length, and an answer as numbers in a slice that the caller lends. Each returns 0 where it
// is granted, the refusal's number where it is refused, and 255 where the lent answer is too short; then nothing is
// written.
#![tactic(auto)]

ghost use Rattle.std.specs.Prelude.{◌≡◌, ◌<◌, length, get_or};
ghost use Rattle.sim0mq.specs.Answer.{fine};
ghost use Rattle.sim0mq.specs.Message.{no_table, table as table_of};
ghost use Rattle.recordings_format.specs.Edition.{newest};
ghost use Rattle.recordings_format.specs.Judge.{opening, places_after, asking};
ghost use Rattle.recordings.specs.Recordings.{asked_as, count_of};
ghost use Rattle.recordings_salvaging.specs.Salvage.{salvage as salvage_of, output_after};
ghost use Rattle.recordings_salvaging.specs.Saving.{report_as, salvaged_as};
ghost use Rattle.boundary_crossing.specs.Numbers.{length_numbers};
ghost use Rattle.boundary_giving.specs.Given.{given, returned, answer_after};
ghost use Rattle.boundary_recordings.specs.Numbers.{place_numbers, salvage_numbers};

use boundary_crossing::give_length;
use boundary_giving::{TOO_SHORT, give};
use recordings::{Placed, ask, open, open_into};
use recordings_fronts::Stop;
use recordings_salvaging::{Report, salvage};
use sim0mq::Refusal;

// How many numbers the calls answer that write more than the answer.
const OPEN_INTO: usize = 3;

const SALVAGE: usize = 8;

// The numbers of what asking for a message answers.
fn place_numbers(said: Result<Placed, Refusal>) -> [u64; 4]
    ensures numbers { result ≡ place_numbers (asked_as said) }
    ensures small { get_or result 0 0 < 4294967296 }
{
    match said {
        Err(r) => [r.reason.number() as u64, r.place as u64, 0, 0],
        Ok(m) => [0, 0, m.start as u64, m.length as u64],
    }
}

// Stores the 4 numbers of what asking for a message answers in `answer`, and returns the first of them; 255, and
// nothing is stored, where `answer` is too short.
#[tactic(auto, using(boundary_giving::proofs::GivenLaws::returned_small))]
fn give_place(said: Result<Placed, Refusal>, answer: &mut [u64]) -> u32
    ensures returned { result ≡ returned 4 answer.old (place_numbers (asked_as said)) }
    ensures answered { answer.new ≡ answer_after 4 answer.old (place_numbers (asked_as said)) }
{
    let numbers = place_numbers(said);
    give(&numbers, answer) as u32
}

// The numbers of a granted salvage.
fn saved_numbers(r: Report) -> [u64; 8]
    ensures { result ≡ salvage_numbers (fine (report_as r)) }
{
    let length = r.length as u64;
    let kept = r.kept as u64;
    let dropped = r.dropped as u64;
    match r.stop {
        Stop::AtEnd => [0, 0, length, kept, dropped, 0, 0, 0],
        Stop::AtMost => [0, 0, length, kept, dropped, 1, 0, 0],
        Stop::AtFault(f) => [
            0,
            0,
            length,
            kept,
            dropped,
            2,
            f.reason.number() as u64,
            f.place as u64,
        ],
    }
}

// The numbers of what salvage answers.
fn salvage_numbers(said: Result<Report, Refusal>) -> [u64; 8]
    ensures numbers { result ≡ salvage_numbers (salvaged_as said) }
    ensures small { get_or result 0 0 < 4294967296 }
{
    match said {
        Err(r) => [r.reason.number() as u64, r.place as u64, 0, 0, 0, 0, 0, 0],
        Ok(r) => saved_numbers(r),
    }
}

// Stores the 8 numbers of what salvage answers, in the same way.
#[tactic(auto, using(boundary_giving::proofs::GivenLaws::returned_small))]
fn give_salvage(said: Result<Report, Refusal>, answer: &mut [u64]) -> u32
    ensures returned { result ≡ returned 8 answer.old (salvage_numbers (salvaged_as said)) }
    ensures answered { answer.new ≡ answer_after 8 answer.old (salvage_numbers (salvaged_as said)) }
{
    let numbers = salvage_numbers(said);
    give(&numbers, answer) as u32
}

// Opens a recording; answers how many messages it has, in the 3 numbers of `length_numbers`.
pub fn sim0mq_recording_open(recording: &[u8], answer: &mut [u64]) -> u32
    ensures returned { result ≡ returned 3 answer.old (length_numbers (count_of (opening no_table recording.now))) }
    ensures answered { answer.new
        ≡ answer_after 3 answer.old (length_numbers (count_of (opening no_table recording.now))) }
{
    give_length(open(recording), answer)
}

// Opens a recording, and stores where each message stands in the table once all are accepted; answers the same 3
// numbers.
#[tactic(auto, unfolding(boundary_giving::specs::Given::given, boundary_giving::specs::Given::returned, boundary_giving::specs::Given::answer_after))]
pub fn sim0mq_recording_open_into(recording: &[u8], table: &mut [u32], answer: &mut [u64]) -> u32
    ensures returned { result ≡ returned 3 answer.old
        (length_numbers (count_of (opening (table_of (length table.old)) recording.now))) }
    ensures stored { table.new
        ≡ given 3 answer.old
        (places_after table.old (opening (table_of (length table.old)) recording.now))
        table.old }
    ensures answered { answer.new
        ≡ answer_after 3 answer.old
        (length_numbers (count_of (opening (table_of (length table.old)) recording.now))) }
{
    if answer.len() < OPEN_INTO {
        return TOO_SHORT;
    }
    give_length(open_into(recording, table), answer)
}

// Asks for message k of a recording; answers where it stands, in the 4 numbers of `place_numbers`.
pub fn sim0mq_recording_ask(recording: &[u8], k: u64, answer: &mut [u64]) -> u32
    ensures returned { result ≡ returned 4 answer.old (place_numbers (asking recording.now k)) }
    ensures answered { answer.new
        ≡ answer_after 4 answer.old (place_numbers (asking recording.now k)) }
{
    give_place(ask(recording, k as usize), answer)
}

// Writes the recording of the messages at the front of a file to `out`; answers its length, what was kept and dropped,
// and why it stopped, in the 8 numbers of `salvage_numbers`.
#[tactic(auto, unfolding(boundary_giving::specs::Given::given, boundary_giving::specs::Given::returned, boundary_giving::specs::Given::answer_after))]
pub fn sim0mq_salvage(file: &[u8], out: &mut [u8], answer: &mut [u64]) -> u32
    ensures returned { result ≡ returned 8 answer.old
        (salvage_numbers (salvage_of newest (length out.old) file.now)) }
    ensures written { out.new
        ≡ given 8 answer.old
        (output_after newest file.now out.old
        (salvage_of newest (length out.old) file.now))
        out.old }
    ensures answered { answer.new
        ≡ answer_after 8 answer.old
        (salvage_numbers (salvage_of newest (length out.old) file.now)) }
{
    if answer.len() < SALVAGE {
        return TOO_SHORT;
    }
    give_salvage(salvage(file, out), answer)
}
