// The writer's answers as numbers, stored in the answer that a caller lends, and its state and the count's type of
// numbers: what the calls for C and Rust hand over.
#![tactic(auto)]

ghost use Rattle.std.specs.Prelude.{◌≡◌, ◌<◌, get_or};
ghost use Rattle.writing.specs.Writing.{wrote_as};
ghost use Rattle.boundary_writer_crossing.specs.States.{wrote_numbers, writer_of, count_type};
ghost use Rattle.boundary_giving.specs.Given.{returned, answer_after};

use boundary_giving::give;
use writing::{Writer, Wrote};

// The numbers of what a call of the writer answers, and of the state that it hands back.
fn wrote_numbers(w: Wrote) -> [u64; 7]
    ensures numbers { result ≡ wrote_numbers (wrote_as w) }
    ensures small { get_or result 0 0 < 4294967296 }
{
    let written = w.writer.written as u64;
    let declared = w.writer.declared as u64;
    let added = w.writer.added as u64;
    let closed = u64::from(w.writer.closed);
    match w.said {
        Err(r) => [
            u64::from(r.reason.number()),
            r.place as u64,
            0,
            written,
            declared,
            added,
            closed,
        ],
        Ok(n) => [0, 0, n as u64, written, declared, added, closed],
    }
}

// Stores the 7 numbers of what a call of the writer answers, and of the state that it hands back, in `answer`, and
// returns the first of them; 255, and nothing is stored, where `answer` is too short.
pub fn give_wrote(w: Wrote, answer: &mut [u64]) -> u32
    ensures returned { result ≡ returned 7 answer.old (wrote_numbers (wrote_as w)) }
    ensures answered { answer.new ≡ answer_after 7 answer.old (wrote_numbers (wrote_as w)) }
{
    let numbers = wrote_numbers(w);
    give(&numbers, answer) as u32
}

// The writer's state of these numbers.
pub fn writer_of(written: u64, declared: u64, added: u64, closed: u8) -> Writer
    ensures { result ≡ writer_of written declared added closed }
{
    Writer {
        written: written as usize,
        declared: declared as usize,
        added: added as usize,
        closed: closed != 0,
    }
}

// The type of the declared count: `kind`, where it is stated.
#[tactic(auto, unfolding(crate::specs::States::count_type))]
pub fn count_type(stated: u8, kind: u8) -> Option<u8>
    ensures { result ≡ count_type stated kind }
{
    (stated != 0).then_some(kind)
}
