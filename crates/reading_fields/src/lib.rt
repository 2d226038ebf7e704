// A payload field, in outline.
#![tactic(auto)]

ghost use Rattle.std.specs.Prelude.{◌≡◌};
ghost use Rattle.sim0mq.specs.Field.{outline as outline_of};
ghost use Rattle.reading_fields.specs.Items.{fielded};

use reading_heads::head;
use reading_values::size;
use sim0mq::Refusal;
use sim0mq_marks::marks;

// What is known of a field: its code, the places of its code byte and of its first value byte, the number of its value
// bytes, of its marks and of its values.
#[derive(Clone, Copy)]
pub struct Field {
    pub code: usize,
    pub place: usize,
    pub first: usize,
    pub size: usize,
    pub marked: usize,
    pub values: usize,
}

// The outline of the field at `at`: all but its Booleans is judged.
pub fn outline(s: &[u8], at: usize) -> Result<Field, Refusal>
    ensures { fielded result ≡ outline_of s.now at }
{
    let h = head(s, at)?;
    let first = marks(s, h.marked, h.next)?;
    let size = size(s, h.code, h.values, first)?;
    Ok(Field {
        code: h.code,
        place: at,
        first,
        size,
        marked: h.marked,
        values: h.values,
    })
}
