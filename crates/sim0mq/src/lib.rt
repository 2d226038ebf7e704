// The Sim0MQ format. What it is stands in specs/, what is promised of it is proved in proofs/; here are the types that
// every answer uses.
#![tactic(auto)]

ghost use Rattle.std.specs.Prelude.{◌≡◌, ◌++◌, Some, codes};
ghost use Rattle.std.specs.Fmt.{decimal};
ghost use Rattle.sim0mq.specs.Views.{number_of};

use std::fmt;

// The most bytes that a message has.
pub const LIMIT: usize = 65536;

// The most fields that a message has.
pub const FIELDS: usize = 256;

// The statuses of a message: new, change and delete.
pub const NEW: u8 = 1;

pub const CHANGE: u8 = 2;

pub const DELETE: u8 = 3;

// How many numbers the field table has for each field.
pub const ROW: usize = 6;

// Why something is refused. Each has its number in document 01's list.
#[derive(Clone, Copy, PartialEq, Eq, Debug)]
pub enum Reason {
    // The bytes end before the item that is read.
    BytesEnd = 1,
    // Frame 0 has a wrong byte, or no digit.
    Frame0 = 2,
    // Frame 0 has the digits of another edition.
    Edition = 3,
    // This type code is not allowed in this frame.
    FrameType = 4,
    // A count is negative.
    NegativeCount = 5,
    // The status is not one of the three.
    Status = 6,
    // There are more fields than a message has, or than the kind of count holds.
    TooManyFields = 7,
    // The message is longer than its limit.
    TooLong = 8,
    // There is no such field code.
    NoSuchCode = 9,
    // A Boolean byte is above 1.
    Boolean = 10,
    // There is no such unit type.
    UnitType = 11,
    // A display code is outside its range.
    Display = 12,
    // Bytes are left after the last item.
    BytesLeft = 13,
    // A lent output is too short.
    TooShort = 14,
    // The call doesn't fit the writer's state.
    State = 15,
    // There is no item of that number.
    NoSuchItem = 16,
    // The value is not of the kind that is asked or allowed.
    Kind = 17,
    // The trailer or the index of a recording is wrong.
    Trailer = 18,
    // A currency code is not in the manual's list.
    Currency = 19,
    // The message's type is unknown.
    MessageType = 20,
    // A command has another status, or another number of fields.
    FieldCount = 21,
    // A command's field has another code.
    FieldCode = 22,
    // A string is empty, or another than the words that are wanted.
    Text = 23,
    // The manual has no sum of this pair.
    Pair = 24,
    // An operand or a result is infinite or no number.
    NotFinite = 25,
    // The sender's id is too long.
    IdTooLong = 26,
    // The message's number is not greater than the last.
    NumberNotGreater = 27,
    // The book has no place free.
    BookFull = 28,
    // There is no such deck.
    NoSuchDeck = 29,
    // No head is on the deck that is left.
    NoHead = 30,
    // The deck that is joined is full.
    DeckFull = 31,
}

impl Reason {
    // Its number.
    pub fn number(self) -> u32
        ensures { result ≡ number_of self }
    {
        self as u32
    }
}

// A refusal: the place of the fault, and why it is one.
#[derive(Clone, Copy, PartialEq, Eq, Debug)]
pub struct Refusal {
    pub place: usize,
    pub reason: Reason,
}

// A refusal is written as `refused N at P`, with its number and its place.
impl fmt::Display for Refusal {
    ghost output = { λ r. Some (codes "refused " ++ (decimal (number_of r.reason) ++ (codes " at " ++ decimal r.place))) };

    fn fmt<W: fmt::Write>(&self, f: &mut fmt::Formatter<W>) -> fmt::Result {
        let number = self.reason.number();
        write!(f, "refused {number} at {}", self.place)
    }
}

// The refusal for this reason at this place.
pub fn refuse<T>(reason: Reason, place: usize) -> Result<T, Refusal>
    ensures { result ≡ Err (record { place = place; reason = reason }) }
{
    Err(Refusal { place, reason })
}
