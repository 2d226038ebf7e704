// The words and the numbers of a line of a case file.
#![tactic(auto)]

ghost use Rattle.std.specs.Prelude.{◌≡◌, true, ◌+◌, ◌-◌, ◌^◌, ◌≤◌, ◌<◌, max, length, None, IfSome};

pub mod wholes;

// How many bytes an output that a line asks for has at most.
pub const ROOM: usize = 66000;

// A number, none where no number stands there, or one that is too large; and the place after it.
#[derive(Clone, Copy)]
pub struct Figure {
    pub value: Option<usize>,
    pub at: usize,
}

impl Figure {
    // The number; the largest where there is none.
    pub fn or_largest(self) -> usize
        ensures value { IfSome self.value (λ n. result ≡ n) }
        ensures none { self.value ≡ None → result ≡ 18446744073709551615 }
    {
        self.value.unwrap_or(usize::MAX)
    }
}

// How many bytes of `buffer` stand before `end`: none where `end` is past it.
pub fn within(end: usize, buffer: &[u8]) -> usize
    ensures { (result ≤ length buffer.now) × (result ≤ end) }
{
    if end <= buffer.len() { end } else { 0 }
}

// The bytes of `text` from `from` up to `to`; none where `text` has no such part.
pub fn part(text: &[u8], from: usize, to: usize) -> &[u8]
    ensures { (length result.now ≤ to - from) × (length result.now ≤ length text.now - from) }
{
    text.get(from..to).unwrap_or(&text[..0])
}

// Whether `line` begins with `word`.
pub fn starts(line: &[u8], word: &[u8]) -> bool
    ensures { result ≡ true → length word.now ≤ length line.now }
{
    line.starts_with(word)
}

// The place of the first byte `b` of `line` from `from` on; its end where there is none.
pub fn find(line: &[u8], from: usize, b: u8) -> usize
    ensures { (from ≤ result) × (result ≤ max from (length line.now)) }
{
    let rest = part(line, from, line.len());
    match rest.iter().position(|x| *x == b) {
        Some(i) => from + i,
        None => from.max(line.len()),
    }
}

// The number that stands in `line` at `from`, in decimal or, after 0x, in hexadecimal.
pub fn number(line: &[u8], from: usize) -> Figure
    ensures from_le_at { (from ≤ result.at) × (result.at ≤ max from (length line.now)) }
    ensures from_lt_at { IfSome result.value (λ n. from < result.at) }
    ensures value_value { length line.now ≤ from → result.value ≡ None }
{
    let rest = part(line, from, line.len());
    match rest.strip_prefix(b"0x") {
        Some(after) => digits::<16>(after, from + 2),
        None => digits::<10>(rest, from),
    }
}

// The number that stands in `line` from `from` to its end.
pub fn last(line: &[u8], from: usize) -> Option<usize>
    ensures { length line.now ≤ from → result ≡ None }
{
    let n = number(line, from);
    if n.at == line.len() { n.value } else { None }
}

// The number that stands in `line` after a space at `at`.
pub fn spaced(line: &[u8], at: usize) -> Figure
    ensures { (at ≤ result.at) × (result.at ≤ max at (length line.now)) }
{
    match line.get(at) {
        Some(b' ') => number(line, at + 1),
        _ => Figure { value: None, at },
    }
}

// The number whose digits stand at the front of `rest`, which begins at `from`.
fn digits<const BASE: u32>(rest: &[u8], from: usize) -> Figure
    requires { (2 ≤ BASE) × (BASE ≤ 36) × (from + length rest.now < 2 ^ 64) }
    ensures from_le_at { (from ≤ result.at) × (result.at ≤ from + length rest.now) }
    ensures from_lt_at { IfSome result.value (λ n. from < result.at) }
    ensures none { length rest.now ≡ 0 → result.value ≡ None }
{
    let mut value: usize = 0;
    for (n, b) in rest.iter().enumerate() {
        match char::from(*b).to_digit(BASE) {
            Some(d) => value = value
                .saturating_mul(BASE as usize)
                .saturating_add(d as usize),
            None => return ended(value, n, from),
        }
    }
    ended(value, rest.len(), from)
}

// The number of the n digits from `from` on; none where there is no digit, or it is the largest or past it.
fn ended(value: usize, n: usize, from: usize) -> Figure
    requires { from + n < 2 ^ 64 }
    ensures at { result.at ≡ from + n }
    ensures value { IfSome result.value (λ v. 0 < n) }
{
    let value = (0 < n && value < usize::MAX).then_some(value);
    Figure {
        value,
        at: from + n,
    }
}
