// Messages found from the front of some bytes, one after the other.
#![tactic(auto)]

ghost use Rattle.std.specs.Prelude.{◌≡◌, length};
ghost use Rattle.sim0mq.specs.Message.{limit, no_table, reading as reading_of};
ghost use Rattle.sim0mq.specs.Table.{stored};
ghost use Rattle.sim0mq.specs.Views.{judged};
ghost use Rattle.dividing.specs.Front.{front_of, front_length};
ghost use Rattle.dividing.specs.Run.{run_from};
ghost use Rattle.recordings_fronts.specs.Fronts.{divided_as, divided_of};

use reading::judge;
use sim0mq::{LIMIT, Reason, Refusal};

// The length of the message at the front of bytes that are no more than the limit: where reading accepts them it is
// all of them, and where it refuses them by 13 it ends at that place. Else the refusal.
fn front(bytes: &[u8]) -> Result<usize, Refusal>
    ensures { judged result ≡ front_of (reading_of no_table bytes.now) }
{
    match judge(bytes).said {
        Ok(f) => Ok(f.length),
        Err(r) => match r.reason {
            Reason::BytesLeft => Ok(r.place),
            _ => Err(r),
        },
    }
}

// The length of the message at the front of the bytes; or the refusal of reading them, cut at the message limit.
pub fn front_length(rest: &[u8]) -> Result<usize, Refusal>
    ensures { judged result ≡ front_length limit rest.now }
{
    if LIMIT < rest.len() {
        return front(&rest[..LIMIT]);
    }
    front(rest)
}

// Why no further message was taken: the bytes end; bytes are left, and as many messages as may be were taken; or no
// message is at the front of the rest, by this refusal, its place counted in the whole.
#[derive(Clone, Copy)]
pub enum Stop {
    AtEnd,
    AtMost,
    AtFault(Refusal),
}

// How many messages were found, the place after them, and why they are no more.
#[derive(Clone, Copy)]
pub struct Divided {
    pub count: usize,
    pub end: usize,
    pub stop: Stop,
}

// The messages from the front of s, at most as many as `lengths` has room for; it then holds their lengths, and after
// them what it held.
pub fn divide(s: &[u8], lengths: &mut [u32]) -> Divided
    ensures answer { divided_as result ≡ divided_of (run_from limit (length lengths.old) s.now 0) }
    ensures kept { lengths.new
        ≡ stored lengths.old (run_from limit (length lengths.old) s.now 0).lengths }
{
    let mut at: usize = 0;
    for (k, length) in lengths.iter_mut().enumerate() {
        if s.len() <= at {
            return Divided {
                count: k,
                end: at,
                stop: Stop::AtEnd,
            };
        }
        match front_length(&s[at..]) {
            Err(r) => {
                return Divided {
                    count: k,
                    end: at,
                    stop: Stop::AtFault(Refusal {
                        place: at + r.place,
                        reason: r.reason,
                    }),
                };
            }
            Ok(n) => {
                *length = n as u32;
                at += n;
            }
        }
    }
    let stop = if at < s.len() {
        Stop::AtMost
    } else {
        Stop::AtEnd
    };
    Divided {
        count: lengths.len(),
        end: at,
        stop,
    }
}
