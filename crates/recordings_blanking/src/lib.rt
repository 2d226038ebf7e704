// Blanking a recording: a copy that has zero in every value byte of every message, so that it shows how a day's
// messages are built and nothing of what they say.
#![tactic(auto)]

ghost use Rattle.std.specs.Prelude.{◌≡◌, ◌≤◌, length};
ghost use Rattle.sim0mq.specs.Answer.{length_of};
ghost use Rattle.sim0mq.specs.Blank.{output_after};
ghost use Rattle.sim0mq.specs.Table.{placed};
ghost use Rattle.sim0mq.specs.Views.{judged};
ghost use Rattle.recordings_format.specs.Judge.{index as index_of};
ghost use Rattle.recordings.specs.Recordings.{lengths_in};
ghost use Rattle.recordings_blanking.specs.Blanking.{copies_in, blanking_recording};
ghost use Rattle.recordings_blanking.specs.Copying.{Accepted};

use blanking::blank;
use recordings::open;
use recordings_index::{Trailer, index};
use sim0mq::{Reason, Refusal, refuse};
use sim0mq_buffers::put;

// The blanked copies of an accepted recording's messages, at the front of `out`, each where its message stands.
fn blank_each(s: &[u8], t: Trailer, out: &mut [u8])
    requires { Accepted s.now t × (length s.now ≤ length out.old) }
    ensures { out.new
        ≡ placed out.old 0 (copies_in s.now (lengths_in (index_of s.now))) }
{
    for k in 0..t.entries {
        let m = t.entry(s.len(), s, k);
        let end = m.start + m.length;
        let _copied = blank(&s[m.start..end], &mut out[m.start..end]);
    }
}

// The length of the recording, whose blanked copy is at the front of `out`, made once each message is accepted and it
// has room; or the refusal, that of opening it or 14 where `out` is shorter than the recording. Refused, `out` is as it
// was.
pub fn blank_recording(recording: &[u8], out: &mut [u8]) -> Result<usize, Refusal>
    ensures answer { judged result ≡ length_of (blanking_recording (length out.old) recording.now) }
    ensures copied { out.new
        ≡ output_after out.old (blanking_recording (length out.old) recording.now) }
{
    let Some(t) = index(recording) else {
        return refuse(Reason::Trailer, 0);
    };
    let _messages = open(recording)?;
    if out.len() < recording.len() {
        return refuse(Reason::TooShort, 0);
    }
    blank_each(recording, t, out);
    put(&recording[t.place..], out, t.place);
    Ok(recording.len())
}
