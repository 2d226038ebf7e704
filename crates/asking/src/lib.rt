// Asking: the field k of a message, read afresh, and a view of its value bytes.
#![tactic(auto)]

ghost use Rattle.std.specs.Prelude.{◌≡◌, ◌+◌};
ghost use Rattle.reading_fields.specs.Items.{fielded, seen};
ghost use Rattle.asking.specs.Asking.{asked, view_of, view_place, field_in};

use reading_fields::Field;
use reading_front::opened;
use reading_payload::payload;
use sim0mq::{ROW, Reason, Refusal, refuse};
use sim0mq_numbers::wide32;

// The field whose row this is.
fn field_in(row: &[u32; ROW]) -> Field
    ensures { seen result ≡ field_in row.now }
{
    Field {
        code: wide32(row[0]),
        place: wide32(row[1]),
        first: wide32(row[2]),
        size: wide32(row[3]),
        marked: wide32(row[4]),
        values: wide32(row[5]),
    }
}

// The field k of the message: what is known of it, with places in the message; or the refusal, which is reading's with
// no table, or 16.
pub fn ask(message: &[u8], k: usize) -> Result<Field, Refusal>
    ensures { fielded result ≡ asked message.now k }
{
    let e = opened(message, None).said?;
    let mut row = [0u32; ROW];
    let _steps = payload(message, e.next, e.fields, k, &mut row)?;
    if e.fields <= k {
        return refuse(Reason::NoSuchItem, 0);
    }
    Ok(field_in(&row))
}

// The very part of the message that holds field k's value bytes; empty where asking is refused.
pub fn view(message: &[u8], k: usize) -> &[u8]
    ensures bytes { result.now ≡ view_of message.now (asked message.now k) }
    ensures part { (result.ref_ptr.0 ≡ message.entry.ref_ptr.0)
        × (result.ref_ptr.1 ≡ message.entry.ref_ptr.1 + view_place (asked message.now k)) }
{
    match ask(message, k) {
        Err(_) => &message[0..0],
        Ok(f) => {
            let first = f.first;
            let end = first + f.size;
            &message[first..end]
        }
    }
}
