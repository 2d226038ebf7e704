// The ledger's judgement of a muster message: what it does, or the refusal.
#![tactic(auto)]

ghost use Rattle.std.specs.Prelude.{◌≡◌, ◌+◌, ◌≤◌, length};
ghost use Rattle.sim0mq.specs.Answer.{fine};
ghost use Rattle.sim0mq.specs.Field.{outline as outline_of};
ghost use Rattle.reading_fields.specs.Items.{seen, fielded};
ghost use Rattle.ledger_decks.specs.Mustering.{is_muster, fields_for, joining, moving, leaving, deed_of, following};
ghost use Rattle.ledger_judging.specs.Judging.{ordered, IsByte, NamesDeck, deed_after, ordering_by};

use ledger_decks::{DECK_HEADS, DECKS, Deed};
use reading_fields::{Field, outline};
use sim0mq::{CHANGE, NEW, Reason, Refusal, refuse};
use sim0mq_numbers::number;

// MUS.1 in ASCII.
const MUSTER: [u8; 5] = *b"MUS.1";

// Whether the frame f of the message is the 8-bit string MUS.1.
fn is_muster(s: &[u8], f: Field) -> bool
    requires { f.first + f.size ≤ length s.now }
    ensures { result ≡ is_muster s.now (seen f) }
{
    f.code == 9 && s[f.first..f.first + f.size] == MUSTER[..]
}

// How many fields a message of this status has.
#[tactic(auto, unfolding(ledger_decks::specs::Mustering::fields_for))]
fn fields_for(status: usize) -> usize
    ensures { result ≡ fields_for status }
{
    if status == CHANGE as usize {
        return 2;
    }
    1
}

// A field that names a deck is a byte.
fn byte(f: Field) -> Result<(), Refusal>
    ensures { IsByte (seen f) result }
{
    if f.code != 0 {
        return refuse(Reason::FieldCode, f.place);
    }
    Ok(())
}

// The outline of the field after f.
fn field_after(s: &[u8], f: Field) -> Result<Field, Refusal>
    requires { f.first + f.size ≤ length s.now }
    ensures { fielded result ≡ following s.now (fine (seen f)) }
{
    outline(s, f.first + f.size)
}

// The outline of the first field, where frame 7 stands at `count`.
fn first_field(s: &[u8], count: usize) -> Result<Field, Refusal>
    ensures { fielded result ≡ following s.now (outline_of s.now count) }
{
    let c = outline(s, count)?;
    field_after(s, c)
}

// How many heads are on each deck, and the message that is judged by them.
#[derive(Clone, Copy)]
struct Judge<'a> {
    heads: [u16; DECKS],
    s: &'a [u8],
}

impl Judge<'_> {
    // The deck that f names.
    fn deck(&self, f: Field) -> Result<usize, Refusal>
        ensures { NamesDeck self.now.s.now (seen f) result }
    {
        let d = number(self.s, f.first, f.size);
        if DECKS <= d {
            return refuse(Reason::NoSuchDeck, f.place);
        }
        Ok(d)
    }

    // What a new does of which f names the deck joined.
    fn join(&self, f: Field) -> Result<Deed, Refusal>
        ensures { ordered result ≡ joining self.now.heads self.now.s.now (seen f) }
    {
        byte(f)?;
        let joined = self.deck(f)?;
        if DECK_HEADS <= self.heads[joined] {
            return refuse(Reason::DeckFull, f.place);
        }
        Ok(Deed::Joins(joined))
    }

    // What a delete does of which f names the deck left.
    fn leave(&self, f: Field) -> Result<Deed, Refusal>
        ensures { ordered result ≡ leaving self.now.heads self.now.s.now (seen f) }
    {
        byte(f)?;
        let left = self.deck(f)?;
        if self.heads[left] <= 0 {
            return refuse(Reason::NoHead, f.place);
        }
        Ok(Deed::Leaves(left))
    }

    // What a change does of which f names the deck joined and g the deck left.
    fn move_by(&self, f: Field, g: Field) -> Result<Deed, Refusal>
        ensures { ordered result ≡ moving self.now.heads self.now.s.now (seen f) (seen g) }
    {
        byte(f)?;
        byte(g)?;
        let joined = self.deck(f)?;
        let left = self.deck(g)?;
        if self.heads[left] <= 0 {
            return refuse(Reason::NoHead, g.place);
        }
        if joined != left && DECK_HEADS <= self.heads[joined] {
            return refuse(Reason::DeckFull, f.place);
        }
        Ok(Deed::Moves(joined, left))
    }

    // What a message of this status does, of which f is the first field.
    fn deed_of(&self, status: usize, f: Field) -> Result<Deed, Refusal>
        requires { f.first + f.size ≤ length self.now.s.now }
        ensures { ordered result
            ≡ deed_of status self.now.heads self.now.s.now (seen f) (following self.now.s.now (fine (seen f))) }
    {
        if status == NEW as usize {
            return self.join(f);
        }
        if status == CHANGE as usize {
            let g = field_after(self.s, f)?;
            return self.move_by(f, g);
        }
        self.leave(f)
    }

    // What a message of this status does, where frame 7 stands at `count`.
    fn deed_for(&self, status: usize, count: usize) -> Result<Deed, Refusal>
        ensures { ordered result ≡ deed_after status self.now.heads self.now.s.now count }
    {
        let f = first_field(self.s, count)?;
        self.deed_of(status, f)
    }
}

// The ledger's judgement of a message of n fields, whose type frame, status frame and frame 7 stand at these places:
// what the message does; or the refusal. Frames and fields that do not stand there are refused as fields are that end
// too soon.
pub fn order(
    heads: [u16; DECKS],
    s: &[u8],
    kind: usize,
    status: usize,
    count: usize,
    n: usize,
) -> Result<Deed, Refusal>
    ensures { ordered result ≡ ordering_by heads s.now kind status count n }
{
    let f = outline(s, kind)?;
    if !is_muster(s, f) {
        return refuse(Reason::MessageType, kind);
    }
    let g = outline(s, status)?;
    let x = number(s, g.first, g.size);
    if n != fields_for(x) {
        return refuse(Reason::FieldCount, kind);
    }
    Judge { heads, s }.deed_for(x, count)
}
