// What blanking answers, as text: a line with the length or the refusal, then a line for each run of bytes of the copy
// that were cleared. The first byte of the copy that is neither zero nor the message's own gets a line too, and so does
// the first past the copy that is not as it was before.
#![tactic(auto)]

ghost use Rattle.std.specs.Prelude.{◌≡◌, ◌≤◌, max, length};

use programs_pieces::{number, put};
use sim0mq::Refusal;
use vectors_lines::{ROOM, part, within};

// Each byte of an output before anything is put into it.
pub const BEFORE: u8 = 0xAA;

// The length of what blanking `message` into an output of `room` bytes answers, put at the front of `out`; 0 where it
// does not fit, or no output has so many bytes.
pub fn answer(message: &[u8], room: usize, out: &mut [u8]) -> usize
    ensures { result ≤ length out.new }
{
    let mut output = [BEFORE; ROOM];
    if ROOM < room {
        return 0;
    }
    let end = blanked(message, &mut output[..room], out);
    within(end, out)
}

// The length of what blanking `message` into this output answers.
fn blanked(message: &[u8], output: &mut [u8], out: &mut [u8]) -> usize {
    match blanking::blank(message, output) {
        Ok(length) => accepted(message, output, length, out),
        Err(refusal) => refused(refusal, output, out),
    }
}

// The length of the lines of an output whose first `length` bytes are a copy of `message`.
fn accepted(message: &[u8], output: &[u8], length: usize, out: &mut [u8]) -> usize {
    let copy = part(output, 0, length);
    let mut at = put(b"blanked ", out, 0);
    at = number(length as u64, out, at);
    at = put(b"\n", out, at);
    at = runs(message, copy, out, at);
    at = fault(b"other at ", other(message, copy), length, out, at);
    fault(
        b"touched at ",
        touched(output, length),
        output.len(),
        out,
        at,
    )
}

// The length of the lines of an output into which nothing was blanked.
fn refused(refusal: Refusal, output: &[u8], out: &mut [u8]) -> usize {
    let at = programs_listing::first_line(Err(refusal), out);
    fault(b"touched at ", touched(output, 0), output.len(), out, at)
}

// The place after a line for each run of bytes of the copy that were cleared, put from `from` on.
fn runs(message: &[u8], copy: &[u8], out: &mut [u8], from: usize) -> usize {
    let mut at = from;
    for i in 0..copy.len() {
        let goes_on = 0 < i && cleared(message, copy, i - 1);
        if cleared(message, copy, i) && !goes_on {
            at = zero(i, run(message, copy, i), out, at);
        }
    }
    at
}

// The place after the bytes of the copy, from `from` on, that were cleared.
fn run(message: &[u8], copy: &[u8], from: usize) -> usize
    ensures { (from ≤ result) × (result ≤ max from (length copy.now)) }
{
    for i in from..copy.len() {
        if !cleared(message, copy, i) {
            return i;
        }
    }
    from.max(copy.len())
}

// Whether byte i of the copy is zero and the message's is not.
fn cleared(message: &[u8], copy: &[u8], i: usize) -> bool {
    copy.get(i) == Some(&0) && message.get(i).is_some_and(|b| *b != 0)
}

// The place after the line of a run of zeros, its first place and its last, put from `from` on; no line where the run
// is empty.
fn zero(first: usize, end: usize, out: &mut [u8], from: usize) -> usize {
    if end <= first {
        return from;
    }
    let mut at = put(b"zero at ", out, from);
    at = number(first as u64, out, at);
    at = put(b" to ", out, at);
    at = number((end - 1) as u64, out, at);
    put(b"\n", out, at)
}

// The place of the first byte of the copy that is neither zero nor the message's own; the copy's length where there is
// none.
fn other(message: &[u8], copy: &[u8]) -> usize {
    copy.iter()
        .enumerate()
        .position(|(i, b)| *b != 0 && message.get(i) != Some(b))
        .unwrap_or(copy.len())
}

// The place of the first byte of the output, from `from` on, that is not as it was before; a place past the output
// where there is none.
pub fn touched(output: &[u8], from: usize) -> usize
    ensures { (from ≤ result) × (result ≤ max from (length output.now)) }
{
    let rest = part(output, from, output.len());
    match rest.iter().position(|b| *b != BEFORE) {
        Some(i) => from + i,
        None => from.max(output.len()),
    }
}

// The place after the line of a fault, put from `from` on where its place is before `end`: its word and its place.
pub fn fault(word: &[u8], place: usize, end: usize, out: &mut [u8], from: usize) -> usize
    ensures value { end ≤ place → result ≡ from }
    ensures out_unchanged { end ≤ place → out.new ≡ out.old }
{
    if end <= place {
        return from;
    }
    let mut at = put(word, out, from);
    at = number(place as u64, out, at);
    put(b"\n", out, at)
}
