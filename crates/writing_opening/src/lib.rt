// The opening of a message: it is judged whole, and then its header is put at the front of a lent buffer.
#![tactic(auto)]

ghost use Rattle.std.specs.Prelude.{◌≡◌, ◌≤◌, length};
ghost use Rattle.sim0mq.specs.Answer.{length_of};
ghost use Rattle.sim0mq.specs.Header.{status_taken};
ghost use Rattle.sim0mq.specs.Views.{judged};
ghost use Rattle.sim0mq.specs.Table.{placed};
ghost use Rattle.writing_opening.specs.Opening.{ids_from, header_with, header_given, buffer_after};
ghost use Rattle.writing_opening.specs.Judges.{most_of, numbers_judged, opening_judged};

use reading_header::id;
use reading_magic::FRAME_0;
use sim0mq::{DELETE, FIELDS, LIMIT, NEW, Reason, Refusal, refuse};
use sim0mq_buffers::put;
use sim0mq_numbers::wide;
use sim0mq_tables::width;
use writing_puts::{bits, put_number};

// The header of a message, judged and put at the front of `out`: its length. The ids are four encoded frames, and the
// declared number of fields is a number of type `code`. Refused, `out` is as it was.
pub fn write_header(
    ids: &[u8],
    number: i64,
    status: u8,
    code: u8,
    fields: usize,
    out: &mut [u8],
) -> Result<usize, Refusal>
    ensures answer { judged result ≡ length_of (header_given ids.now number status code fields (length out.old)) }
    ensures written { out.new
        ≡ buffer_after out.old 0
        (header_given ids.now number status code fields (length out.old)) }
{
    let n = judge_opening(ids, status, code, fields, out.len())?;
    put_header(ids, number, status, code, fields, out);
    Ok(n)
}

// The four id frames, with nothing after them: the place after them.
fn id_frames(s: &[u8]) -> Result<usize, Refusal>
    ensures { judged result ≡ ids_from s.now 4 0 }
{
    let mut at: usize = 0;
    for _ in 0..4usize {
        let f = id(s, at)?;
        at = f.first + f.size;
    }
    if at < s.len() {
        return refuse(Reason::BytesLeft, at);
    }
    Ok(at)
}

// Whether it is a status: new, change or delete.
#[tactic(auto, unfolding(sim0mq::specs::Header::status_taken))]
fn is_status(x: u8) -> bool
    ensures { result ≡ status_taken x }
{
    (NEW..=DELETE).contains(&x)
}

// The most fields that a count of this type says.
fn most_of(code: u8) -> usize
    ensures { result ≡ most_of code }
{
    if code == 0 { 127 } else { FIELDS }
}

// The length of a header whose ids have n bytes; or the refusal of its status, its count's type, its count, its length,
// or the room.
#[tactic(auto, using(sim0mq::proofs::Rows::eight_wide))]
fn judge_numbers(
    n: usize,
    status: u8,
    code: u8,
    fields: usize,
    room: usize,
) -> Result<usize, Refusal>
    ensures { judged result ≡ numbers_judged n status code fields room }
{
    if !is_status(status) {
        return refuse(Reason::Status, 0);
    }
    if 2 < code {
        return refuse(Reason::FrameType, 0);
    }
    if most_of(code) < fields {
        return refuse(Reason::TooManyFields, 0);
    }
    let front = 22 + width(wide(code));
    if LIMIT - front < n {
        return refuse(Reason::TooLong, 0);
    }
    if room < front + n {
        return refuse(Reason::TooShort, 0);
    }
    Ok(front + n)
}

// The length of the header that these ids, this status and this count ask for; or the refusal.
fn judge_opening(
    ids: &[u8],
    status: u8,
    code: u8,
    fields: usize,
    room: usize,
) -> Result<usize, Refusal>
    ensures { judged result ≡ opening_judged ids.now status code fields room }
{
    id_frames(ids)?;
    judge_numbers(ids.len(), status, code, fields, room)
}

// The header at the front of `out`.
fn put_header(ids: &[u8], number: i64, status: u8, code: u8, fields: usize, out: &mut [u8])
    requires { (code ≤ 2) × (length (header_with ids.now number status code fields) ≤ length out.old) }
    ensures { out.new
        ≡ placed out.old 0 (header_with ids.now number status code fields) }
{
    put(&FRAME_0, out, 0);
    put(ids, out, 10);
    let at = 10 + ids.len();
    put_number(out, at, 3, 8, bits(number, 18446744073709551615));
    put_number(out, at + 9, 0, 1, status as u64);
    put_number(out, at + 11, code, width(wide(code)), fields as u64);
}
