// The calls of boundary_recorder, which write a recording, for C and Rust.
ghost use Rattle.std.specs.Prelude.{◌≡◌, length};
ghost use Rattle.boundary_giving.specs.Given.{given, returned, answer_after};
ghost use Rattle.boundary_recorder.specs.Numbers.{recorder_of, add_numbers, added_in, close_numbers, closed_in};

// Adds a message to the recording of the state of these numbers, in `out`; answers the bytes written so far and the
// state, in the 6 numbers of `recorded_numbers`.
#[unsafe(no_mangle)]
pub extern "C" fn sim0mq_recording_add(
    written: u64,
    messages: u64,
    closed: u8,
    message: &[u8],
    out: &mut [u8],
    answer: &mut [u64],
) -> u32
    ensures returned { result ≡ returned 6 answer.old
        (add_numbers (recorder_of written messages closed) (length out.old) message.now) }
    ensures written { out.new
        ≡ given 6 answer.old
        (added_in (recorder_of written messages closed) out.old message.now)
        out.old }
    ensures answered { answer.new
        ≡ answer_after 6 answer.old
        (add_numbers (recorder_of written messages closed) (length out.old) message.now) }
{
    boundary_recorder::sim0mq_recording_add(written, messages, closed, message, out, answer)
}

// Closes the recording of the state of these numbers, in `out`; answers as adding does.
#[unsafe(no_mangle)]
pub extern "C" fn sim0mq_recording_close(
    written: u64,
    messages: u64,
    closed: u8,
    out: &mut [u8],
    answer: &mut [u64],
) -> u32
    ensures returned { result ≡ returned 6 answer.old (close_numbers (recorder_of written messages closed) out.old) }
    ensures written { out.new
        ≡ given 6 answer.old
        (closed_in (recorder_of written messages closed) out.old)
        out.old }
    ensures answered { answer.new
        ≡ answer_after 6 answer.old
        (close_numbers (recorder_of written messages closed) out.old) }
{
    boundary_recorder::sim0mq_recording_close(written, messages, closed, out, answer)
}
