// A case that writes: its calls of the writer, one a line, and what they answer, as text.
#![tactic(auto)]

ghost use Rattle.std.specs.Prelude.{◌≤◌, length};

use crate::answers::{Called, NOTHING};
use programs_pieces::put;
use vectors_copies::BEFORE;
use vectors_lines::wholes::signed;
use vectors_lines::{ROOM, last, number, part, spaced, within};
use vectors_scalar_lines::scalar;
use vectors_tokens::added;
use writing::Writer;

mod answers;

// The writer's state after a line, and the place after the text so far.
#[derive(Clone, Copy)]
struct Step {
    writer: Writer,
    at: usize,
}

// The length of what the calls of these lines answer, put at the front of `out`: each opens with these ids, and the
// output has `room` bytes. 0 where it does not fit, or no output has so many bytes.
pub fn answer(text: &[u8], ids: &[u8], room: usize, out: &mut [u8]) -> usize
    ensures { result ≤ length out.new }
{
    let mut output = [BEFORE; ROOM];
    let mut kept = [BEFORE; ROOM];
    if ROOM < room {
        return 0;
    }
    let end = all(text, ids, &mut output[..room], &mut kept, out);
    within(end, out)
}

// The length of what the calls of these lines answer, in this output, which holds what `kept` does.
fn all(text: &[u8], ids: &[u8], output: &mut [u8], kept: &mut [u8], out: &mut [u8]) -> usize {
    let mut step = Step {
        writer: NOTHING,
        at: 0,
    };
    for line in text.split(|b| *b == b'\n') {
        step = turn(line, ids, step, output, kept, out);
    }
    step.at
}

// The step after a line; one that is no call of the writer's changes nothing.
fn turn(
    line: &[u8],
    ids: &[u8],
    step: Step,
    output: &mut [u8],
    kept: &mut [u8],
    out: &mut [u8],
) -> Step {
    if line == b"closes".as_slice() {
        return closes(step, output, kept, out);
    }
    if let Some(text) = line.strip_prefix(b"state ") {
        return match state(text) {
            Some(writer) => Step {
                writer,
                at: step.at,
            },
            None => lost(step, out),
        };
    }
    if let Some(text) = line.strip_prefix(b"holds ") {
        return holds(text, step, output, out);
    }
    if !line.starts_with(b"opens ") && !line.starts_with(b"adds") {
        return step;
    }
    let Some(call) = called(line, ids, step.writer, output) else {
        return lost(step, out);
    };
    let at = answers::answer(call, kept, output, out, step.at);
    Step {
        writer: call.wrote.writer,
        at,
    }
}

// The step after a line that is not understood, which it says.
fn lost(step: Step, out: &mut [u8]) -> Step {
    Step {
        writer: step.writer,
        at: put(b"not understood\n", out, step.at),
    }
}

// The call that opens or adds, by its words; none where they are not understood. `adds scalar KIND NUMBER`, with a mark
// where it has one: a scalar is added.
fn called(line: &[u8], ids: &[u8], writer: Writer, output: &mut [u8]) -> Option<Called> {
    if let Some(text) = line.strip_prefix(b"opens ") {
        return opens(text, ids, output);
    }
    if let Some(text) = line.strip_prefix(b"adds scalar ") {
        let wrote = writer.add_scalar(scalar(text)?, output);
        return Some(Called {
            word: b"added ",
            left: writer,
            wrote,
        });
    }
    adds(line.strip_prefix(b"adds")?, writer, output)
}

// `opens NUMBER STATUS COUNT`, and the count's TYPE where it is stated: a message is opened.
fn opens(text: &[u8], ids: &[u8], output: &mut [u8]) -> Option<Called> {
    let id = signed(text, 0);
    let status = spaced(text, id.at);
    let count = spaced(text, status.at);
    let kind = match part(text, count.at, text.len()) {
        [] => None,
        [b' ', stated @ ..] => Some(u8::try_from(last(stated, 0)?).ok()?),
        _ => return None,
    };
    let status = u8::try_from(status.value?).ok()?;
    let wrote = Writer::open(ids, id.value?, status, count.value?, kind, output);
    Some(Called {
        word: b"opened ",
        left: NOTHING,
        wrote,
    })
}

// `adds TOKENS`: an encoded field is added.
fn adds(tokens: &[u8], writer: Writer, output: &mut [u8]) -> Option<Called> {
    let mut field = [0u8; ROOM];
    let n = added(tokens, 0, &mut field, 0)?;
    let wrote = writer.add(part(&field, 0, n), output);
    Some(Called {
        word: b"added ",
        left: writer,
        wrote,
    })
}

// `closes`: the message is closed and, where that is granted, read.
fn closes(step: Step, output: &[u8], kept: &mut [u8], out: &mut [u8]) -> Step {
    let wrote = step.writer.close();
    let call = Called {
        word: b"closed ",
        left: step.writer,
        wrote,
    };
    let told = answers::answer(call, kept, output, out, step.at);
    Step {
        writer: wrote.writer,
        at: answers::read_back(wrote, output, out, told),
    }
}

// `state WRITTEN DECLARED ADDED CLOSED`: the state that the next call takes; CLOSED is 0 or 1, and another number that
// is too large is the largest.
fn state(text: &[u8]) -> Option<Writer> {
    let written = number(text, 0);
    let declared = spaced(text, written.at);
    let added = spaced(text, declared.at);
    let closed = spaced(text, added.at);
    if closed.at != text.len() || 1 < closed.value? {
        return None;
    }
    Some(Writer {
        written: written.or_largest(),
        declared: declared.or_largest(),
        added: added.or_largest(),
        closed: closed.value == Some(1),
    })
}

// `holds TOKENS`: the output begins with these bytes; its first other byte is told.
fn holds(tokens: &[u8], step: Step, output: &[u8], out: &mut [u8]) -> Step {
    let mut bytes = [0u8; ROOM];
    match added(tokens, 0, &mut bytes, 0) {
        Some(n) => Step {
            writer: step.writer,
            at: answers::begins(part(&bytes, 0, n), output, out, step.at),
        },
        None => lost(step, out),
    }
}
