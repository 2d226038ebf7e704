// Writing a recording, message by message.
#![tactic(auto)]

ghost use Rattle.std.specs.Prelude.{◌≡◌, length};
ghost use Rattle.writing_opening.specs.Opening.{buffer_after};
ghost use Rattle.recordings_format.specs.Edition.{newest};
ghost use Rattle.recordings_writing.specs.Recorder.{empty, usable as usable_in, adding, closing, added, closed_by, states, handed_back, told_as, after_adding, after_closing};

use reading::judge;
use recordings_format::MOST;
use recordings_fronts::{Stop, divide};
use recordings_tails::put_tail;
use sim0mq::{Reason, Refusal, refuse};
use sim0mq_buffers::put;

// The recorder's state: how many bytes and messages were written, and whether it is closed.
#[derive(Clone, Copy)]
pub struct Recorder {
    pub written: usize,
    pub messages: usize,
    pub closed: bool,
}

// What a call answers, the bytes written so far or the refusal, and the state that it hands back.
#[derive(Clone, Copy)]
pub struct Recorded {
    pub said: Result<usize, Refusal>,
    pub recorder: Recorder,
}

impl Recorder {
    // A new one: nothing is written.
    pub fn new() -> Recorder
        ensures { result ≡ empty }
    {
        Recorder {
            written: 0,
            messages: 0,
            closed: false,
        }
    }

    // Adds a message, in the buffer that the messages before it were written in: the bytes written then. Or 15 for a
    // state that is closed, past its buffer or full, then the message's own refusal, placed within it, then 14 where it
    // has no room; refused, the buffer is as it was, and so is the state.
    pub fn add(self, message: &[u8], out: &mut [u8]) -> Recorded
        ensures answer { told_as result
            ≡ after_adding self (adding newest self (length out.old) message.now) }
        ensures written { out.new
            ≡ buffer_after out.old self.written
            (adding newest self (length out.old) message.now) }
    {
        let next = self.try_add(message, out);
        self.after(next)
    }

    // Puts the index and the trailer after the messages, which are found again in the buffer: the bytes of the whole
    // recording. Or 15 for a state that is closed, past its buffer, or whose bytes are not so many messages, then 14
    // where there is no room; refused, the buffer is as it was, and so is the state.
    pub fn close(self, out: &mut [u8]) -> Recorded
        ensures answer { told_as result ≡ after_closing self (closing newest self out.old) }
        ensures written { out.new
            ≡ buffer_after out.old self.written (closing newest self out.old) }
    {
        let next = self.try_close(out);
        self.after(next)
    }

    // What a call answers that led to this next state or was refused: a refusal hands back the state that was taken.
    fn after(self, next: Result<Recorder, Refusal>) -> Recorded
        ensures { told_as result ≡ handed_back self (states next) }
    {
        match next {
            Err(r) => Recorded {
                said: Err(r),
                recorder: self,
            },
            Ok(w) => Recorded {
                said: Ok(w.written),
                recorder: w,
            },
        }
    }

    // Whether this state is open, and within a buffer of `room` bytes.
    #[tactic(auto, unfolding(crate::specs::Recorder::usable))]
    fn usable(self, room: usize) -> bool
        ensures { result ≡ usable_in self room }
    {
        !self.closed && self.written <= room
    }

    // The state after this message, whose bytes are put after what was written; or the refusal of adding it.
    fn try_add(self, message: &[u8], out: &mut [u8]) -> Result<Recorder, Refusal>
        ensures answer { states result
            ≡ added self (adding newest self (length out.old) message.now) }
        ensures written { out.new
            ≡ buffer_after out.old self.written
            (adding newest self (length out.old) message.now) }
    {
        if !self.usable(out.len()) {
            return refuse(Reason::State, 0);
        }
        if MOST <= self.messages {
            return refuse(Reason::State, 0);
        }
        let _found = judge(message).said?;
        let at = self.written;
        if out.len() - at < message.len() {
            return refuse(Reason::TooShort, 0);
        }
        put(message, out, at);
        Ok(Recorder {
            written: at + message.len(),
            messages: self.messages + 1,
            closed: false,
        })
    }

    // The closed state, once the index and the trailer are put after the messages; or the refusal of closing.
    fn try_close(self, out: &mut [u8]) -> Result<Recorder, Refusal>
        ensures answer { states result ≡ closed_by self (closing newest self out.old) }
        ensures written { out.new
            ≡ buffer_after out.old self.written (closing newest self out.old) }
    {
        if !self.usable(out.len()) {
            return refuse(Reason::State, 0);
        }
        let mut lengths = [0u32; MOST];
        let d = divide(&out[..self.written], &mut lengths);
        if d.count != self.messages {
            return refuse(Reason::State, 0);
        }
        match d.stop {
            Stop::AtEnd => {}
            _ => return refuse(Reason::State, 0),
        }
        let written = put_tail(&lengths[..self.messages], out, self.written)?;
        Ok(Recorder {
            written,
            messages: self.messages,
            closed: true,
        })
    }
}
