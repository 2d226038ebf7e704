// The calls of boundary_recordings, which open recordings, ask for a message of one, and salvage a cut one, for C and
// Rust.
ghost use Rattle.std.specs.Prelude.{◌≡◌, length};
ghost use Rattle.sim0mq.specs.Message.{no_table, table as table_of};
ghost use Rattle.recordings_format.specs.Edition.{newest};
ghost use Rattle.recordings_format.specs.Judge.{opening, places_after, asking};
ghost use Rattle.recordings.specs.Recordings.{count_of};
ghost use Rattle.recordings_salvaging.specs.Salvage.{salvage as salvage_of, output_after};
ghost use Rattle.boundary_crossing.specs.Numbers.{length_numbers};
ghost use Rattle.boundary_giving.specs.Given.{given, returned, answer_after};
ghost use Rattle.boundary_recordings.specs.Numbers.{place_numbers, salvage_numbers};

// Opens a recording; answers how many messages it has, in the 3 numbers of `length_numbers`.
#[unsafe(no_mangle)]
pub extern "C" fn sim0mq_recording_open(recording: &[u8], answer: &mut [u64]) -> u32
    ensures returned { result ≡ returned 3 answer.old (length_numbers (count_of (opening no_table recording.now))) }
    ensures answered { answer.new
        ≡ answer_after 3 answer.old (length_numbers (count_of (opening no_table recording.now))) }
{
    boundary_recordings::sim0mq_recording_open(recording, answer)
}

// Opens a recording, and stores where each message stands in the table once all are accepted; answers the same 3
// numbers.
#[unsafe(no_mangle)]
pub extern "C" fn sim0mq_recording_open_into(
    recording: &[u8],
    table: &mut [u32],
    answer: &mut [u64],
) -> u32
    ensures returned { result ≡ returned 3 answer.old
        (length_numbers (count_of (opening (table_of (length table.old)) recording.now))) }
    ensures stored { table.new
        ≡ given 3 answer.old
        (places_after table.old (opening (table_of (length table.old)) recording.now))
        table.old }
    ensures answered { answer.new
        ≡ answer_after 3 answer.old
        (length_numbers (count_of (opening (table_of (length table.old)) recording.now))) }
{
    boundary_recordings::sim0mq_recording_open_into(recording, table, answer)
}

// Asks for message k of a recording; answers where it stands, in the 4 numbers of `place_numbers`.
#[unsafe(no_mangle)]
pub extern "C" fn sim0mq_recording_ask(recording: &[u8], k: u64, answer: &mut [u64]) -> u32
    ensures returned { result ≡ returned 4 answer.old (place_numbers (asking recording.now k)) }
    ensures answered { answer.new
        ≡ answer_after 4 answer.old (place_numbers (asking recording.now k)) }
{
    boundary_recordings::sim0mq_recording_ask(recording, k, answer)
}

// Writes the recording of the messages at the front of a file to `out`; answers its length, what was kept and dropped,
// and why it stopped, in the 8 numbers of `salvage_numbers`.
#[unsafe(no_mangle)]
pub extern "C" fn sim0mq_salvage(file: &[u8], out: &mut [u8], answer: &mut [u64]) -> u32
    ensures returned { result ≡ returned 8 answer.old
        (salvage_numbers (salvage_of newest (length out.old) file.now)) }
    ensures written { out.new
        ≡ given 8 answer.old
        (output_after newest file.now out.old
        (salvage_of newest (length out.old) file.now))
        out.old }
    ensures answered { answer.new
        ≡ answer_after 8 answer.old
        (salvage_numbers (salvage_of newest (length out.old) file.now)) }
{
    boundary_recordings::sim0mq_salvage(file, out, answer)
}
