// What reading answered, as text: the lines that document 01 shows under "Examples".
//
// The text is put into a lent buffer by the calls of `pieces`. The longest text has a first line of at most 72 bytes
// and a row of at most 37 for each field (no number of a row is above the most bytes of a message), so 16,384 bytes are
// always enough.
#![tactic(auto)]

ghost use Rattle.std.specs.Prelude.{◌≡◌, ◌*◌, ◌≤◌, length};
ghost use Rattle.io.specs.Counts.{IsPrefixLen};
ghost use Rattle.sim0mq.specs.Table.{row_size};
ghost use Rattle.programs_listing.specs.Put.{buffer, put_all, out_after, bytes_before, bytes_written};
ghost use Rattle.programs_listing.specs.Text.{accepted_text, refused_text, row_text, rows_text, line_text, whole_text};

use programs_pieces::{number, put};
use reading::Found;
use sim0mq::{ROW, Refusal};

// The text of what reading answered, at the front of `out`: how many bytes it has, and 0 where `out` is too short for
// it or `table` for its rows. Each line ends with a newline. Where `table` is too short, nothing is put.
#[tactic(auto, unfolding(sim0mq::specs::Table::row_size))]
pub fn listing(said: Result<Found, Refusal>, table: &[u32], out: &mut [u8]) -> usize
    ensures counts { IsPrefixLen result out.new }
    ensures answer { result ≡ bytes_written out.old (whole_text said table.now) }
    ensures text { out.new ≡ out_after out.old (whole_text said table.now) }
{
    match said {
        Ok(found) => {
            if table.len() / ROW < found.fields {
                return 0;
            }
            let at = accepted(found, out);
            let end = rows(found.fields, table, out, at);
            whole(end, out)
        }
        Err(_) => first_line(said, out),
    }
}

// The first line of that text alone, at the front of `out`: how many bytes it has, and 0 where `out` is too short for
// it.
pub fn first_line(said: Result<Found, Refusal>, out: &mut [u8]) -> usize
    ensures counts { IsPrefixLen result out.new }
    ensures answer { result ≡ bytes_written out.old (line_text said) }
    ensures text { out.new ≡ out_after out.old (line_text said) }
{
    match said {
        Ok(found) => whole(accepted(found, out), out),
        Err(refusal) => whole(refused(refusal, out), out),
    }
}

// How many bytes of `out` stand before `end`: none where `end` is past it.
#[tactic(auto, unfolding(crate::specs::Put::bytes_before))]
fn whole(end: usize, out: &[u8]) -> usize
    ensures prefix_len { IsPrefixLen result out.now }
    ensures value { result ≡ bytes_before out.now end }
{
    if end <= out.len() { end } else { 0 }
}

// The place after the line of an accepted message: its fields, steps and length.
fn accepted(found: Found, out: &mut [u8]) -> usize
    ensures { buffer out.new result ≡ put_all (buffer out.old 0) (accepted_text found) }
{
    let mut at = put(b"SIM01 fields ", out, 0);
    at = number(found.fields as u64, out, at);
    at = put(b" steps ", out, at);
    at = number(found.steps as u64, out, at);
    at = put(b" length ", out, at);
    at = number(found.length as u64, out, at);
    put(b"\n", out, at)
}

// The place after the line of a refusal: its number and place.
fn refused(refusal: Refusal, out: &mut [u8]) -> usize
    ensures { buffer out.new result ≡ put_all (buffer out.old 0) (refused_text refusal) }
{
    let mut at = put(b"refused ", out, 0);
    at = number(u64::from(refusal.reason.number()), out, at);
    at = put(b" at ", out, at);
    at = number(refusal.place as u64, out, at);
    put(b"\n", out, at)
}

// The place after the rows of the first `fields` fields, put from `from` on.
#[tactic(auto, unfolding(sim0mq::specs::Table::row_size))]
fn rows(fields: usize, table: &[u32], out: &mut [u8], from: usize) -> usize
    requires { row_size * fields ≤ length table.now }
    ensures { buffer out.new result
        ≡ put_all (buffer out.old from) (rows_text table.now fields) }
{
    let mut at = from;
    for i in 0..fields {
        at = row(i, &table[ROW * i..ROW * i + ROW], out, at);
    }
    at
}

// The place after the row of field i, put from `from` on: i and its numbers.
fn row(i: usize, numbers: &[u32], out: &mut [u8], from: usize) -> usize
    ensures { buffer out.new result
        ≡ put_all (buffer out.old from) (row_text i numbers.now) }
{
    let mut at = number(i as u64, out, from);
    for x in numbers {
        at = put(b" ", out, at);
        at = number(u64::from(*x), out, at);
    }
    put(b"\n", out, at)
}
