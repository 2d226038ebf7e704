// Salvage after a cut upload: the messages at the front of a file, with a new index and trailer after them.
#![tactic(auto)]

ghost use Rattle.std.specs.Prelude.{◌≡◌, length};
ghost use Rattle.recordings_format.specs.Edition.{newest};
ghost use Rattle.recordings_salvaging.specs.Salvage.{salvage as salvage_of, output_after};
ghost use Rattle.recordings_salvaging.specs.Saving.{salvaged_as};

use recordings_format::MOST;
use recordings_fronts::{Stop, divide};
use recordings_tails::put_tail;
use sim0mq::Refusal;
use sim0mq_buffers::put;

// What is reported: the new recording's length, how many messages were kept, how many bytes dropped, and why it
// stopped.
#[derive(Clone, Copy)]
pub struct Report {
    pub length: usize,
    pub kept: usize,
    pub dropped: usize,
    pub stop: Stop,
}

// Keeps the longest run of messages from the front of the file, and writes the recording of them to the front of `out`:
// its length, how many were kept, how many bytes dropped, and why it stopped. Or 14 at 0, where `out` is too short for
// the recording; refused, `out` is as it was.
pub fn salvage(file: &[u8], out: &mut [u8]) -> Result<Report, Refusal>
    ensures answer { salvaged_as result ≡ salvage_of newest (length out.old) file.now }
    ensures written { out.new
        ≡ output_after newest file.now out.old
        (salvage_of newest (length out.old) file.now) }
{
    let mut lengths = [0u32; MOST];
    let d = divide(file, &mut lengths);
    let length = put_tail(&lengths[..d.count], out, d.end)?;
    put(&file[..d.end], out, 0);
    Ok(Report {
        length,
        kept: d.count,
        dropped: file.len() - d.end,
        stop: d.stop,
    })
}
