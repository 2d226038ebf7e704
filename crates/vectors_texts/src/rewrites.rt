// Whether writing gives a message back: opened with the message's own ids, number, status and count, its fields added
// in turn, and closed.
ghost use Rattle.std.specs.Prelude.{◌≤◌, length};

use programs_pieces::put;
use reading_header::Frame;
use sim0mq_kinds::Scalar;
use sim0mq_numbers::number;
use vectors_copies::{BEFORE, touched};
use vectors_lines::{ROOM, part, within};
use writing::Writer;

// How many bytes an output has past the message.
const PAST: usize = 64;

// An accepted message, with its frames, and how many fields it has.
#[derive(Clone, Copy)]
struct Message<'a> {
    bytes: &'a [u8],
    frames: [Frame; 8],
    fields: usize,
}

// The place after a line for each way of adding fields, encoded and by scalars, in which an accepted message is not
// given back, put from `from` on. A message that is refused has no line; 0 where the lines do not fit.
pub fn answer(message: &[u8], out: &mut [u8], from: usize) -> usize
    ensures { result ≤ length out.new }
{
    let end = lines_of(message, out, from);
    within(end, out)
}

// The place after these lines.
fn lines_of(message: &[u8], out: &mut [u8], from: usize) -> usize {
    let judged = reading::judge(message);
    let Ok(found) = judged.said else {
        return from;
    };
    let frames = judged.frames;
    let accepted = Message {
        bytes: message,
        frames,
        fields: found.fields,
    };
    let encoded = rewritten(accepted, add_encoded);
    let at = fault(encoded, b"not rewritten\n", out, from);
    let by_scalars = rewritten(accepted, add_scalar);
    fault(by_scalars, b"not rewritten by scalars\n", out, at)
}

// The place after this line, put from `from` on; no line where all is well.
fn fault(well: bool, line: &[u8], out: &mut [u8], from: usize) -> usize {
    if well { from } else { put(line, out, from) }
}

// Whether a message is given back where its fields are added in this way, in an output of some bytes more than it has.
fn rewritten<F: Fn(&[u8], usize, Writer, &mut [u8]) -> Writer>(message: Message, add: F) -> bool
    requires { F.IsAlwaysCallable add }
{
    let mut room = [BEFORE; ROOM];
    if ROOM - PAST < message.bytes.len() {
        return false;
    }
    let end = message.bytes.len() + PAST;
    written(message, add, &mut room[..end])
}

// Whether a message is given back where its fields are added in this way, in this output, and no byte past it is
// touched.
fn written<F: Fn(&[u8], usize, Writer, &mut [u8]) -> Writer>(
    message: Message,
    add: F,
    out: &mut [u8],
) -> bool
    requires { F.IsAlwaysCallable add }
{
    let mut writer = open(message, out);
    for k in 0..message.fields {
        writer = add(message.bytes, k, writer, out);
    }
    match writer.close().said {
        Ok(length) => part(out, 0, length) == message.bytes && out.len() <= touched(out, length),
        Err(_) => false,
    }
}

// The state after opening with the ids, number, status and count of a message.
fn open(message: Message, out: &mut [u8]) -> Writer {
    let bytes = message.bytes;
    let run = message.frames[1];
    let number = message.frames[5];
    let status = message.frames[6];
    let count = message.frames[7];
    let wrote = Writer::open(
        part(bytes, run.place, number.place),
        number_after(bytes, number.place),
        byte_at(bytes, status.place.saturating_add(1)),
        message.fields,
        Some(byte_at(bytes, count.place)),
        out,
    );
    wrote.writer
}

// The signed number of 64 bits after the byte at `at`; 0 where it is not there.
fn number_after(message: &[u8], at: usize) -> i64 {
    let bits = number(message, at.saturating_add(1), 8);
    (bits as u64).cast_signed()
}

// The byte at `at`; 0 where there is none.
fn byte_at(message: &[u8], at: usize) -> u8 {
    message.get(at).copied().unwrap_or(0)
}

// The state after field k: added as a scalar where it has a value, else encoded.
fn add_scalar(message: &[u8], k: usize, writer: Writer, out: &mut [u8]) -> Writer {
    match asking_scalars::value(message, k) {
        Err(_) | Ok(Scalar::NotNumber(_)) => add_encoded(message, k, writer, out),
        Ok(scalar) => writer.add_scalar(scalar, out).writer,
    }
}

// The state after field k, added encoded.
fn add_encoded(message: &[u8], k: usize, writer: Writer, out: &mut [u8]) -> Writer {
    writer.add(field(message, k), out).writer
}

// The bytes of field k; none where asking is refused.
fn field(message: &[u8], k: usize) -> &[u8] {
    match asking::ask(message, k) {
        Ok(f) => part(message, f.place, f.first.saturating_add(f.size)),
        Err(_) => &message[..0],
    }
}
