// Asking for a message of a recording that lies afar, by its length and its last bytes.
#![tactic(auto)]

ghost use Rattle.std.specs.Prelude.{◌≡◌};
ghost use Rattle.recordings_reaching.specs.Reaching.{asking_in, reaching_as};

use recordings::Placed;
use recordings_index::{Reached, index_tail};
use sim0mq::{Reason, Refusal, refuse};

// What asking by the last bytes answers: where the message stands; or how many of the file's last bytes are wanted,
// where these do not reach the first entry.
#[derive(Clone, Copy)]
pub enum Reaching {
    At(Placed),
    Wanted(usize),
}

// Asks for message k, counted from 0, of a file of n bytes that ends in these: where it stands in the file, how many of
// its last bytes are wanted, or the refusal. The message itself is not judged but for its edition's limit.
pub fn ask_tail(n: usize, tail: &[u8], k: usize) -> Result<Reaching, Refusal>
    ensures { reaching_as result ≡ asking_in n tail.now k }
{
    let t = match index_tail(n, tail) {
        Reached::Wrong => return refuse(Reason::Trailer, 0),
        Reached::Wanted(w) => return Ok(Reaching::Wanted(w)),
        Reached::Found(t) => t,
    };
    if t.entries <= k {
        return refuse(Reason::NoSuchItem, 0);
    }
    let m = t.entry(n, tail, k);
    if t.edition.most < m.length {
        return refuse(Reason::TooLong, m.start);
    }
    Ok(Reaching::At(m))
}
