// The signed numbers of a line.
ghost use Rattle.std.specs.Prelude.{ℕ, suc, ◌≡◌, ◌≤◌, ◌<◌, max, length, pos, negsuc, Some, None};

use crate::number;

// A signed number of 64 bits, none where no number stands there, or one that has more; and the place after it.
#[derive(Clone, Copy)]
pub struct Whole {
    pub value: Option<i64>,
    pub at: usize,
}

// The signed number that stands in `line` at `from`.
pub fn signed(line: &[u8], from: usize) -> Whole
    ensures { (from ≤ result.at) × (result.at ≤ max from (length line.now)) }
{
    if line.get(from) == Some(&b'-') {
        return negative(line, from + 1);
    }
    let figure = number(line, from);
    Whole {
        value: figure.value.and_then(|n| i64::try_from(n).ok()),
        at: figure.at,
    }
}

// The number below 0 whose digits stand in `line` at `from`; 0 too, where they write it.
fn negative(line: &[u8], from: usize) -> Whole
    ensures { (from ≤ result.at) × (result.at ≤ max from (length line.now)) }
{
    let figure = number(line, from);
    Whole {
        value: figure.value.and_then(opposite),
        at: figure.at,
    }
}

// -n, in 64 bits; none where it has more.
fn opposite(n: usize) -> Option<i64>
    ensures zero { n ≡ 0 → result ≡ Some (pos 0) }
    ensures below { (k : ℕ) → n ≡ suc k → k ≤ 9223372036854775807 → result ≡ Some (negsuc k) }
    ensures none { 9223372036854775808 < n → result ≡ None }
{
    match n.checked_sub(1) {
        None => Some(0),
        Some(below) => i64::try_from(below).ok().map(|z| !z),
    }
}
