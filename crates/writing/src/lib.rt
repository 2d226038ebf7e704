// Writing: a message is opened, its fields are added one by one, and it is closed.
#![tactic(auto)]

ghost use Rattle.std.specs.Prelude.{◌≡◌, length, true};
ghost use Rattle.writing_opening.specs.Opening.{fitting, buffer_after};
ghost use Rattle.writing.specs.Writing.{asks_for, opening, after_opening, encoded, scalar, takes as takes_field, adding, after_adding, closing, after_closing, wrote_as, handed};

use reading_payload::payload;
use sim0mq::{LIMIT, Reason, Refusal, refuse};
use sim0mq_buffers::put;
use sim0mq_kinds::Scalar;
use writing_encoding::encode;
use writing_opening::write_header;

// The writer's state: the bytes written so far, the declared number of fields, how many were added, and whether it is
// closed.
#[derive(Clone, Copy, PartialEq, Eq, Debug)]
pub struct Writer {
    pub written: usize,
    pub declared: usize,
    pub added: usize,
    pub closed: bool,
}

// What a call of the writer answers, the bytes written so far or the refusal, and the state that it hands back.
#[derive(Clone, Copy, PartialEq, Eq, Debug)]
pub struct Wrote {
    pub said: Result<usize, Refusal>,
    pub writer: Writer,
}

// The state that a refused opening hands back: closed, with every number 0.
const SHUT: Writer = Writer {
    written: 0,
    declared: 0,
    added: 0,
    closed: true,
};

// The type code of a declared count whose type is not stated.
const STANDARD: u8 = 2;

impl Writer {
    // What a call on this state hands back: the state that it led to, with the bytes written so far; or the refusal,
    // with this state.
    fn hands(self, led: Result<Writer, Refusal>) -> Wrote
        ensures { wrote_as result ≡ handed self led }
    {
        match led {
            Ok(writer) => Wrote {
                said: Ok(writer.written),
                writer,
            },
            Err(r) => Wrote {
                said: Err(r),
                writer: self,
            },
        }
    }

    // Whether this state takes a field, in a buffer of `room` bytes.
    #[tactic(auto, unfolding(crate::specs::Writing::takes, sim0mq::specs::Message::limit))]
    fn takes(self, room: usize) -> bool
        ensures { result ≡ takes_field self room }
    {
        self.added < self.declared && !self.closed && self.written <= LIMIT && self.written <= room
    }

    // Adds the bytes of one field to a state that takes it.
    fn append(self, text: &[u8], out: &mut [u8]) -> Result<Writer, Refusal>
        requires { takes_field self (length out.old) ≡ true }
        ensures answer { handed self result
            ≡ after_adding self (fitting self.written (length out.old) text.now) }
        ensures written { out.new
            ≡ buffer_after out.old self.written
            (fitting self.written (length out.old) text.now) }
    {
        let at = self.written;
        if LIMIT - at < text.len() {
            return refuse(Reason::TooLong, 0);
        }
        if out.len() - at < text.len() {
            return refuse(Reason::TooShort, 0);
        }
        put(text, out, at);
        Ok(Writer {
            written: at + text.len(),
            declared: self.declared,
            added: self.added + 1,
            closed: false,
        })
    }

    // Adds an encoded field.
    fn adding(self, field: &[u8], out: &mut [u8]) -> Result<Writer, Refusal>
        ensures answer { handed self result
            ≡ after_adding self (adding self (length out.old) (encoded field.now)) }
        ensures written { out.new
            ≡ buffer_after out.old self.written
            (adding self (length out.old) (encoded field.now)) }
    {
        if !self.takes(out.len()) {
            return refuse(Reason::State, 0);
        }
        payload(field, 0, 1, 0, &mut [0u32; 0])?;
        self.append(field, out)
    }

    // Adds a scalar as asking returns it.
    fn adding_scalar(self, value: Scalar, out: &mut [u8]) -> Result<Writer, Refusal>
        ensures answer { handed self result
            ≡ after_adding self (adding self (length out.old) (scalar value)) }
        ensures written { out.new
            ≡ buffer_after out.old self.written (adding self (length out.old) (scalar value)) }
    {
        if !self.takes(out.len()) {
            return refuse(Reason::State, 0);
        }
        match encode(value) {
            None => refuse(Reason::Kind, 0),
            Some(field) => {
                let bytes = field.bytes;
                self.append(&bytes[..field.length], out)
            }
        }
    }

    // Closes the message, where as many fields were added as declared.
    #[tactic(auto, unfolding(crate::specs::Writing::closing, sim0mq::specs::Message::limit))]
    fn closing(self) -> Result<Writer, Refusal>
        ensures { handed self result ≡ after_closing self (closing self) }
    {
        if self.closed || LIMIT < self.written || self.added != self.declared {
            return refuse(Reason::State, 0);
        }
        Ok(Writer {
            closed: true,
            ..self
        })
    }

    // Opens a message in `out` and writes its header; the ids are four encoded frames. Refused, it hands back a closed
    // state with every number 0.
    pub fn open(
        ids: &[u8],
        number: i64,
        status: u8,
        fields: usize,
        kind: Option<u8>,
        out: &mut [u8],
    ) -> Wrote
        ensures answer { wrote_as result
            ≡ after_opening (asks_for ids.now number status fields kind)
            (opening (asks_for ids.now number status fields kind) (length out.old)) }
        ensures written { out.new
            ≡ buffer_after out.old 0
            (opening (asks_for ids.now number status fields kind) (length out.old)) }
    {
        let code = kind.unwrap_or(STANDARD);
        match write_header(ids, number, status, code, fields, out) {
            Err(r) => SHUT.hands(Err(r)),
            Ok(written) => SHUT.hands(Ok(Writer {
                written,
                declared: fields,
                added: 0,
                closed: false,
            })),
        }
    }

    // Adds an encoded field; refused, it hands back the state that it took.
    pub fn add(self, field: &[u8], out: &mut [u8]) -> Wrote
        ensures answer { wrote_as result
            ≡ after_adding self (adding self (length out.old) (encoded field.now)) }
        ensures written { out.new
            ≡ buffer_after out.old self.written
            (adding self (length out.old) (encoded field.now)) }
    {
        let led = self.adding(field, out);
        self.hands(led)
    }

    // Adds a scalar as asking returns it; refused, it hands back the state that it took.
    pub fn add_scalar(self, value: Scalar, out: &mut [u8]) -> Wrote
        ensures answer { wrote_as result
            ≡ after_adding self (adding self (length out.old) (scalar value)) }
        ensures written { out.new
            ≡ buffer_after out.old self.written (adding self (length out.old) (scalar value)) }
    {
        let led = self.adding_scalar(value, out);
        self.hands(led)
    }

    // The length of the finished message, and the same state, now closed; refused, it hands back the state that it
    // took.
    pub fn close(self) -> Wrote
        ensures { wrote_as result ≡ after_closing self (closing self) }
    {
        self.hands(self.closing())
    }
}
