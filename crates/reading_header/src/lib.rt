// The header: the eight frames, in and out as an array by value.
#![tactic(auto)]

ghost use Rattle.std.specs.Prelude.{◌≡◌};
ghost use Rattle.sim0mq.specs.Header.{id_codes, frame as frame_of, status as status_of, header as header_of};
ghost use Rattle.reading_fields.specs.Items.{fielded};
ghost use Rattle.reading_header.specs.Frames.{NoBoolean, is_text, nth_frame, counted, declared_number, header_rest, refused_as, told_as, told};

use reading_fields::{Field, outline};
use reading_magic::magic;
use sim0mq::{DELETE, FIELDS, NEW, Reason, Refusal, refuse};
use sim0mq_numbers::number;

// A frame's place, which is that of its first byte, and its type code.
#[derive(Clone, Copy)]
pub struct Frame {
    pub place: usize,
    pub code: usize,
}

// The declared number of fields, and the place after the header.
#[derive(Clone, Copy)]
pub struct End {
    pub fields: usize,
    pub next: usize,
}

// What the header says, and the frames beside it: on a refusal they are those that went in.
#[derive(Clone, Copy)]
pub struct Answer {
    pub said: Result<End, Refusal>,
    pub frames: [Frame; 8],
}

const ID_CODES: [u8; 4] = [9, 10, 1, 2];

const NUMBER_CODES: [u8; 1] = [3];

const STATUS_CODES: [u8; 1] = [0];

const COUNT_CODES: [u8; 3] = [0, 1, 2];

// The frame at `at`, of one of these types.
fn typed(s: &[u8], codes: &[u8], at: usize) -> Result<Field, Refusal>
    requires { NoBoolean codes.now }
    ensures { fielded result ≡ frame_of s.now codes.now at }
{
    if s.len() <= at {
        return refuse(Reason::BytesEnd, s.len());
    }
    if codes.contains(&s[at]) {
        return outline(s, at);
    }
    refuse(Reason::FrameType, at)
}

// Frame 6, at `at`: its value is a status.
fn status(s: &[u8], at: usize) -> Result<Field, Refusal>
    ensures { fielded result ≡ status_of s.now at }
{
    let f = typed(s, &STATUS_CODES, at)?;
    let x = s[f.first];
    if x < NEW {
        return refuse(Reason::Status, f.first);
    }
    if DELETE < x {
        return refuse(Reason::Status, f.first);
    }
    Ok(f)
}

// The declared number of fields, with its frame.
#[derive(Clone, Copy)]
struct Count {
    field: Field,
    number: usize,
}

// Frame 7, at `at`: its value, the declared number of fields, is neither negative nor too large.
fn declared(s: &[u8], at: usize) -> Result<Count, Refusal>
    ensures { counted result ≡ declared_number s.now at }
{
    let field = typed(s, &COUNT_CODES, at)?;
    let first = field.first;
    if 128 <= s[first] {
        return refuse(Reason::NegativeCount, first);
    }
    let number = number(s, first, field.size);
    if FIELDS < number {
        return refuse(Reason::TooManyFields, first);
    }
    Ok(Count { field, number })
}

// Whether a string of bytes that is all there stands at `at`, in bytes so few that its count cannot be negative.
fn is_text(s: &[u8], at: usize) -> bool
    ensures { result ≡ is_text s.now at }
{
    if s.len() <= at {
        return false;
    }
    if 2147483648 <= s.len() {
        return false;
    }
    let room = s.len() - at;
    if room < 5 {
        return false;
    }
    if s[at] != 9 {
        return false;
    }
    number(s, at + 1, 4) <= room - 5
}

// The id frame at `at`, of any of its types.
fn any_id(s: &[u8], at: usize) -> Result<Field, Refusal>
    ensures { fielded result ≡ frame_of s.now id_codes at }
{
    typed(s, &ID_CODES, at)
}

// The id frame at `at`, one of frames 1 to 4. A string of bytes, the usual id, has a way of its own.
pub fn id(s: &[u8], at: usize) -> Result<Field, Refusal>
    ensures { fielded result ≡ frame_of s.now id_codes at }
{
    if is_text(s, at) {
        let n = number(s, at + 1, 4);
        return Ok(Field {
            code: 9,
            place: at,
            first: at + 5,
            size: n,
            marked: 0,
            values: n,
        });
    }
    any_id(s, at)
}

// Frame k, one of 1 to 6, at `at`.
fn nth(s: &[u8], k: usize, at: usize) -> Result<Field, Refusal>
    ensures { fielded result ≡ nth_frame s.now k at }
{
    if k <= 4 {
        return id(s, at);
    }
    if k == 5 {
        return typed(s, &NUMBER_CODES, at);
    }
    status(s, at)
}

// A refusal, with the frames that went in.
fn refused(r: Refusal, frames: [Frame; 8]) -> Answer
    ensures { told_as result ≡ told frames (refused_as r) }
{
    Answer {
        said: Err(r),
        frames,
    }
}

// The frames after frame 0, which ends at `start`.
fn rest(s: &[u8], frames: [Frame; 8], start: usize) -> Answer
    ensures { told_as result ≡ told frames (header_rest s.now start) }
{
    let mut fs = frames;
    fs[0] = Frame { place: 0, code: 9 };
    let mut at = start;
    for k in 1..7 {
        match nth(s, k, at) {
            Err(r) => return refused(r, frames),
            Ok(f) => {
                fs[k] = Frame {
                    place: f.place,
                    code: f.code,
                };
                at = f.first + f.size;
            }
        }
    }
    match declared(s, at) {
        Err(r) => refused(r, frames),
        Ok(c) => {
            let f = c.field;
            fs[7] = Frame {
                place: f.place,
                code: f.code,
            };
            Answer {
                said: Ok(End {
                    fields: c.number,
                    next: f.first + f.size,
                }),
                frames: fs,
            }
        }
    }
}

// The header at the front of s: the declared number of fields and the header's end, with the frames; or the refusal,
// with the frames as they were.
pub fn header(s: &[u8], frames: [Frame; 8]) -> Answer
    ensures { told_as result ≡ told frames (header_of s.now) }
{
    match magic(s) {
        Err(r) => refused(r, frames),
        Ok(at) => rest(s, frames, at),
    }
}
