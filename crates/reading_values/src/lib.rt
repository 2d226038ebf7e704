// The values of a payload field: the number of their bytes, and the place after them.
#![tactic(auto)]

ghost use Rattle.std.specs.Prelude.{◌≡◌, ◌+◌, ◌*◌, ◌<◌, ◌≤◌, length, leb};
ghost use Rattle.sim0mq.specs.Codes.{boolean as boolean_of};
ghost use Rattle.sim0mq.specs.Views.{judged};
ghost use Rattle.reading_values.specs.Values.{size_of, size_at, NoneAbove, booleans_end, values_end};

use sim0mq::{Reason, Refusal, refuse};
use sim0mq_tables::width;

// Whether n values of w bytes fit into `room` bytes.
fn fits(n: usize, w: usize, room: usize) -> bool
    requires { 0 < w }
    ensures { result ≡ leb (n * w) room }
{
    n <= room / w
}

// The number of bytes of n values of w bytes each, all of which are there from `first` on.
fn size_of(s: &[u8], w: usize, n: usize, first: usize) -> Result<usize, Refusal>
    requires { (0 < w) × (first ≤ length s.now) }
    ensures { judged result ≡ size_of s.now w n first }
{
    if fits(n, w, s.len() - first) {
        return Ok(n * w);
    }
    refuse(Reason::BytesEnd, s.len())
}

// The number of bytes of n values of this code, all of which are there from `first` on. Each width has a way of its
// own, so that where the next field begins does not wait for this one's code.
pub fn size(s: &[u8], code: usize, n: usize, first: usize) -> Result<usize, Refusal>
    ensures { judged result ≡ size_at s.now code n first }
{
    if s.len() < first {
        return refuse(Reason::BytesEnd, s.len());
    }
    if 32 < code {
        return Ok(0);
    }
    let w = width(code);
    if w == 1 {
        return size_of(s, 1, n, first);
    }
    if w == 2 {
        return size_of(s, 2, n, first);
    }
    if w == 4 {
        return size_of(s, 4, n, first);
    }
    size_of(s, 8, n, first)
}

// A number that none of the n bytes from `at` on is above. It looks at all of them, whatever they are, so that many are
// looked at in one step.
fn largest(s: &[u8], n: usize, at: usize) -> u8
    requires { at + n ≤ length s.now }
    ensures { NoneAbove s.now n at result }
{
    let mut most: u8 = 0;
    for i in 0..n {
        most = most.max(s[at + i]);
    }
    most
}

// The n Boolean bytes from `at` on, byte by byte: the place after them.
fn each_boolean(s: &[u8], n: usize, at: usize) -> Result<usize, Refusal>
    requires { at + n ≤ length s.now }
    ensures { judged result ≡ booleans_end s.now n at }
{
    for p in at..at + n {
        if 1 < s[p] {
            return refuse(Reason::Boolean, p);
        }
    }
    Ok(at + n)
}

// The n Boolean bytes from `at` on: the place after them.
fn booleans(s: &[u8], n: usize, at: usize) -> Result<usize, Refusal>
    requires { at + n ≤ length s.now }
    ensures { judged result ≡ booleans_end s.now n at }
{
    if largest(s, n, at) <= 1 {
        return Ok(at + n);
    }
    each_boolean(s, n, at)
}

// Whether the values of this code are Booleans.
#[tactic(auto, unfolding(sim0mq::specs::Codes::boolean))]
fn boolean(code: usize) -> bool
    ensures { result ≡ boolean_of code }
{
    code == 6 || code == 17 || code == 24
}

// The n values of this code from `first` on, with Booleans judged in order: the place after them.
pub fn values(s: &[u8], code: usize, n: usize, first: usize) -> Result<usize, Refusal>
    ensures { judged result ≡ values_end s.now code n first }
{
    let bytes = size(s, code, n, first)?;
    if boolean(code) {
        return booleans(s, bytes, first);
    }
    Ok(first + bytes)
}
