// Fields that are alike, which are judged together: of one code, each one value of any bytes, one after the other.
#![tactic(auto)]

ghost use Rattle.std.specs.Prelude.{◌≡◌, ◌+◌, ◌<◌, ◌≤◌, length, IsTrue};
ghost use Rattle.reading_runs.specs.Runs.{plain_size, stands_at, alike, run_of, run_at};

use sim0mq_numbers::wide;

// Fields of one code that follow one another, each one value of `size` bytes with no count and no mark: how many there
// are, and the place after them.
#[derive(Clone, Copy)]
pub struct Run {
    pub code: usize,
    pub size: usize,
    pub fields: usize,
    pub end: usize,
}

// The bytes of the one value of a field of this code, where they may be any bytes and neither count nor mark stands
// before them; else 0.
#[tactic(auto, unfolding(crate::specs::Runs::plain_size, sim0mq::specs::Codes::width_of, sim0mq::specs::Codes::boolean))]
fn plain_size(code: usize) -> usize
    ensures { result ≡ plain_size code }
{
    match code {
        0 => 1,
        1 => 2,
        2 => 4,
        3 => 8,
        4 => 4,
        5 => 8,
        6 => 0,
        7 => 1,
        8 => 2,
        _ => 0,
    }
}

// Whether a field of this code and one value of `size` bytes, all there, stands at `at`.
#[tactic(auto, unfolding(crate::specs::Runs::stands_at))]
fn stands(s: &[u8], at: usize, code: u8, size: usize) -> bool
    requires { at ≤ length s.now }
    ensures is { result ≡ stands_at s.now code size at }
    ensures within { IsTrue result → at + size < length s.now }
{
    size < s.len() - at && s[at] == code
}

// The run of these numbers.
fn told(code: u8, size: usize, fields: usize, end: usize) -> Run
    ensures { result ≡ record { code = code; size = size; fields = fields; end = end } }
{
    Run {
        code: wide(code),
        size,
        fields,
        end,
    }
}

// The fields of this code from `at` on, up to n, each one value of `size` bytes.
fn each(s: &[u8], at: usize, code: u8, size: usize, n: usize) -> Run
    requires { at ≤ length s.now }
    ensures { result ≡ run_of code size (alike s.now code size n at) at }
{
    let mut end = at;
    for fields in 0..n {
        if !stands(s, end, code, size) {
            return told(code, size, fields, end);
        }
        end += size + 1;
    }
    told(code, size, n, end)
}

// The same, with a way of its own for a field that the next one is not like.
fn together(s: &[u8], at: usize, code: u8, size: usize, n: usize) -> Run
    requires { (at ≤ length s.now) × (0 < n) }
    ensures { result ≡ run_of code size (alike s.now code size n at) at }
{
    if !stands(s, at, code, size) {
        return told(code, size, 0, at);
    }
    let next = at + (size + 1);
    if stands(s, next, code, size) {
        return each(s, at, code, size, n);
    }
    told(code, size, 1, next)
}

// The run at `at`, of up to n fields; of none, where no field stands there that may be of any bytes. Each size has a
// way of its own, so that where the next field begins does not wait for this one's code.
pub fn run_at(s: &[u8], at: usize, n: usize) -> Run
    ensures { result ≡ run_at s.now at n }
{
    if n == 0 || s.len() <= at {
        return told(0, 0, 0, at);
    }
    let code = s[at];
    match plain_size(wide(code)) {
        1 => together(s, at, code, 1, n),
        2 => together(s, at, code, 2, n),
        4 => together(s, at, code, 4, n),
        8 => together(s, at, code, 8, n),
        _ => told(0, 0, 0, at),
    }
}
