// The bytes that a line adds to the message.
#![tactic(auto)]

ghost use Rattle.std.specs.Prelude.{◌≤◌, ◌<◌, length, IfSome};

use programs_pieces::put;
use vectors_lines::{find, number, part};

// Where a token of a line ends, and the message's length after it: past the message's room where a text does not fit.
#[derive(Clone, Copy)]
struct Step {
    at: usize,
    length: usize,
}

// The message's length after the bytes that `line` gives from `from` on; none where one is not understood or does not
// fit.
pub fn added(line: &[u8], from: usize, message: &mut [u8], before: usize) -> Option<usize>
    ensures { IfSome result (λ n. n ≤ length message.new) }
{
    let mut step = Step {
        at: from,
        length: before,
    };
    while step.at < line.len() {
        step = token(line, message, step)?;
    }
    if step.length <= message.len() {
        Some(step.length)
    } else {
        None
    }
}

// The step after the token of `line` that begins where this one ended.
fn token(line: &[u8], message: &mut [u8], before: Step) -> Option<Step>
    requires { before.at < length line.now }
    ensures { IfSome result (λ s. before.at < s.at) }
{
    let at = before.at;
    let length = before.length;
    match line[at] {
        b' ' => Some(Step { at: at + 1, length }),
        b'"' => quoted(line, at + 1, message, length),
        b'@' => named(line, at + 1, message, length),
        _ => counted(line, at, message, length),
    }
}

// A text, up to the quotation mark that ends it.
fn quoted(line: &[u8], at: usize, message: &mut [u8], length: usize) -> Option<Step>
    ensures { IfSome result (λ s. at < s.at) }
{
    let end = find(line, at, b'"');
    if line.len() <= end {
        return None;
    }
    Some(Step {
        at: end + 1,
        length: put(part(line, at, end), message, length),
    })
}

// The message S, or the header of it, by the name that stands at `at`.
fn named(line: &[u8], at: usize, message: &mut [u8], length: usize) -> Option<Step>
    ensures { IfSome result (λ s. at ≤ s.at) }
{
    let end = find(line, at, b' ');
    let length = match part(line, at, end) {
        b"front" => front(message, length),
        b"S" => {
            let header = front(message, length);
            put(b"\x05\x3F\xC9\x99\x99\x99\x99\x99\x9A", message, header)
        }
        _ => return None,
    };
    Some(Step { at: end, length })
}

// The message's length after the header of S, the message of 000 section 2.3.6 as document 01 corrects it: frames 0 and
// 1, 2 and 3, 4, 5 to 7.
fn front(message: &mut [u8], length: usize) -> usize {
    let mut at = put(
        b"\x09\0\0\0\x05SIM01\x09\0\0\0\x09IDVV.14.2",
        message,
        length,
    );
    at = put(b"\x09\0\0\0\x04MC.1\x09\0\0\0\x05MM1.4", message, at);
    at = put(b"\x09\0\0\0\x06DSOL.3", message, at);
    put(b"\x03\0\0\0\0\0\0\0\x7C\0\x02\x01\0\x01", message, at)
}

// A byte, or a number of times a byte.
fn counted(line: &[u8], at: usize, message: &mut [u8], length: usize) -> Option<Step>
    ensures { IfSome result (λ s. at < s.at) }
{
    let n = number(line, at);
    let value = n.value?;
    if line.get(n.at) != Some(&b'*') {
        let length = fill(value, 1, message, length)?;
        return Some(Step { at: n.at, length });
    }
    let b = number(line, n.at + 1);
    let length = fill(b.value?, value, message, length)?;
    Some(Step { at: b.at, length })
}

// The message's length after `times` bytes of this value; none where they do not fit or it is no byte.
fn fill(value: usize, times: usize, message: &mut [u8], length: usize) -> Option<usize> {
    let b = u8::try_from(value).ok()?;
    message.get_mut(length..)?.get_mut(..times)?.fill(b);
    Some(length + times)
}
