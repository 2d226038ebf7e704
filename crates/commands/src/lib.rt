// Is the other program's message one of the manual's commands?
#![tactic(auto)]

ghost use Rattle.std.specs.Prelude.{◌≡◌, List, map, ◌+◌, ◌*◌, ◌<◌, ◌≤◌, length, get_or};
ghost use Rattle.std.specs.List.{find};
ghost use Rattle.sim0mq.specs.Answer.{big};
ghost use Rattle.sim0mq.specs.Field as F;
ghost use Rattle.sim0mq.specs.Header.{most_fields};
ghost use Rattle.sim0mq.specs.Table.{row_size};
ghost use Rattle.sim0mq.specs.Views.{number_of as number_said};
ghost use Rattle.commands_page.specs.Page.{number_or, row_at};
ghost use Rattle.commands_page.specs.Judging.{is_word, code_taken, text_taken, passes as passes_of, want_in, each as each_of, number_right, fields_right, looks_at, command_of, commanded};
ghost use Rattle.commands.specs.Names.{id_of, number_of, command_as, repeats_of};
ghost use Rattle.commands.specs.Tables.{IsWord, want_of, Cell, Held, done, commanded_by};

use reading::read;
use sim0mq::{CHANGE, FIELDS, NEW, ROW, Reason, Refusal, refuse};
use sim0mq_numbers::{wide, wide32};

// The commands of the manual's chapter 4, in its order.
#[derive(Clone, Copy, PartialEq, Eq, Debug)]
pub enum Name {
    StartFederate,
    StarterRequestStatus,
    Status,
    FederateStarted,
    SimRunControl,
    AckNak,
    SetParameter,
    SimStart,
    RequestStatus,
    RequestStatistics,
    Statistics,
    StatisticsError,
    SimReset,
    KillFederate,
    KillAll,
    KillModel,
    FederateKilled,
    FederatesKilled,
}

// All of them.
const NAMES: [Name; 18] = [
    Name::StartFederate,
    Name::StarterRequestStatus,
    Name::Status,
    Name::FederateStarted,
    Name::SimRunControl,
    Name::AckNak,
    Name::SetParameter,
    Name::SimStart,
    Name::RequestStatus,
    Name::RequestStatistics,
    Name::Statistics,
    Name::StatisticsError,
    Name::SimReset,
    Name::KillFederate,
    Name::KillAll,
    Name::KillModel,
    Name::FederateKilled,
    Name::FederatesKilled,
];

// What a command wants of a field: its code, and what a string says.
#[derive(Clone, Copy)]
enum Wanted {
    Text,
    Filled,
    State,
    Fault,
    Boolean,
    Short,
    Integer,
    Long,
    Double,
    AnyType,
    Duration,
    Time,
    Basic,
}

// What FM.1 wants of its fields; and FM.2, before those that follow by turns.
const START: [Wanted; 12] = [
    Wanted::Filled, // the instance id
    Wanted::Filled,
    Wanted::Text,
    Wanted::Filled,
    Wanted::Text,
    Wanted::Filled,
    Wanted::Text,
    Wanted::Filled,
    Wanted::Filled,
    Wanted::Boolean,
    Wanted::Boolean,
    Wanted::Boolean,
];

const RUN: [Wanted; 6] = [
    Wanted::Duration,
    Wanted::Duration,
    Wanted::Time,
    Wanted::Double,
    Wanted::Integer,
    Wanted::Integer,
];

// Byte i of s; 0 past its end.
fn byte_at(s: &[u8], i: usize) -> u8
    ensures { result ≡ get_or s.now i 0 }
{
    s.get(i).copied().unwrap_or(0)
}

// Whether the `size` bytes of s from `at` on are this word.
fn word(s: &[u8], at: usize, size: usize, w: &[u8]) -> bool
    requires { (at < 8589934592) × IsWord w.now }
    ensures { result ≡ is_word s.now at size w.now }
{
    if size != w.len() {
        return false;
    }
    match s.get(at..at + size) {
        None => false,
        Some(part) => part == w,
    }
}

// The number that the four bytes from `at` on write.
#[tactic(auto, unfolding(sim0mq::specs::Answer::big))]
fn four(s: &[u8], at: usize) -> usize
    requires { at < 8589934592 }
    ensures { (result ≡ big s.now at 4) × (result < 4294967296) }
{
    let a = wide(byte_at(s, at));
    let b = wide(byte_at(s, at + 1));
    let c = wide(byte_at(s, at + 2));
    let d = wide(byte_at(s, at + 3));
    ((a * 256 + b) * 256 + c) * 256 + d
}

// Whether it is a number of code 1 to 5, or a float or double of this unit type.
#[tactic(auto, unfolding(commands_page::specs::Judging::code_taken))]
fn timed(c: usize, u: u8, unit: u8) -> bool
    ensures { result ≡ code_taken (number_or unit).codes c u }
{
    match c {
        1..=5 => true,
        25 | 26 => u == unit,
        _ => false,
    }
}

impl Wanted {
    // Whether a field of code c, with unit type u if it has a mark, has a code that is wanted.
    #[tactic(auto, unfolding(commands_page::specs::Judging::code_taken))]
    fn takes(self, c: usize, u: u8) -> bool
        ensures { result ≡ code_taken (want_of self).codes c u }
    {
        match self {
            Wanted::Text | Wanted::Filled | Wanted::State | Wanted::Fault => c == 9,
            Wanted::Boolean => c == 6,
            Wanted::Short => c == 1,
            Wanted::Integer => c == 2,
            Wanted::Long => c == 3,
            Wanted::Double => c == 5,
            Wanted::AnyType => c <= 32,
            Wanted::Duration => timed(c, u, 25),
            Wanted::Time => timed(c, u, 26),
            Wanted::Basic => matches!(c, 1..=3 | 9),
        }
    }

    // Whether the string of `size` bytes from `first` on is as it is wanted.
    #[tactic(auto, unfolding(commands_page::specs::Judging::text_taken, commands_page::specs::Judging::is_one_of))]
    fn reads(self, s: &[u8], first: usize, size: usize) -> bool
        requires { first < 4294967296 }
        ensures { result ≡ text_taken (want_of self).rule s.now first size }
    {
        match self {
            Wanted::Filled => 0 < size,
            Wanted::State => {
                word(s, first, size, b"started")
                    || word(s, first, size, b"running")
                    || word(s, first, size, b"ended")
                    || word(s, first, size, b"error")
            }
            Wanted::Fault => word(s, first, size, b"name") || word(s, first, size, b"novalue"),
            _ => true,
        }
    }
}

impl Name {
    // Its type id.
    fn id(self) -> &'static [u8]
        ensures { (result.now ≡ id_of self) × IsWord result.now }
    {
        match self {
            Name::StartFederate => b"FM.1",
            Name::StarterRequestStatus => b"FS.1",
            Name::Status => b"MC.1",
            Name::FederateStarted => b"FS.2",
            Name::SimRunControl => b"FM.2",
            Name::AckNak => b"MC.2",
            Name::SetParameter => b"FM.3",
            Name::SimStart => b"FM.4",
            Name::RequestStatus => b"FM.5",
            Name::RequestStatistics => b"FM.6",
            Name::Statistics => b"MC.3",
            Name::StatisticsError => b"MC.4",
            Name::SimReset => b"FM.7",
            Name::KillFederate => b"FM.8",
            Name::KillAll => b"FM.9",
            Name::KillModel => b"FS.3",
            Name::FederateKilled => b"FS.4",
            Name::FederatesKilled => b"FS.5",
        }
    }

    // Its status: change for FM.7, new for the others.
    fn status(self) -> u8
        ensures { result ≡ (row_at (number_of self)).status }
    {
        match self {
            Name::SimReset => CHANGE,
            _ => NEW,
        }
    }

    // What it wants of its own fields.
    #[tactic(auto, unfolding(commands_page::specs::Page::page, commands_page::specs::Page::row_at))]
    fn wants(self) -> &'static [Wanted]
        ensures { map want_of result.now ≡ (row_at (number_of self)).fields }
    {
        match self {
            Name::StartFederate => &START,
            Name::Status => &[Wanted::Long, Wanted::State, Wanted::Text],
            Name::FederateStarted => &[Wanted::Text, Wanted::State, Wanted::Short, Wanted::Text],
            Name::SimRunControl => &RUN,
            Name::AckNak => &[Wanted::Long, Wanted::Boolean, Wanted::Text],
            Name::SetParameter => &[Wanted::Text, Wanted::AnyType],
            Name::RequestStatistics => &[Wanted::Text],
            Name::Statistics => &[Wanted::Text, Wanted::AnyType],
            Name::StatisticsError => &[Wanted::Text, Wanted::Fault],
            Name::KillFederate => &[Wanted::Text],
            Name::FederateKilled => &[Wanted::Text, Wanted::Boolean, Wanted::Text],
            Name::FederatesKilled => &[Wanted::Boolean, Wanted::Text],
            Name::StarterRequestStatus
            | Name::SimStart
            | Name::RequestStatus
            | Name::SimReset
            | Name::KillAll
            | Name::KillModel => &[],
        }
    }

    // Whether fields follow its own by turns, as in FM.2.
    fn repeats(self) -> bool
        ensures { result ≡ repeats_of self }
    {
        matches!(self, Name::SimRunControl)
    }

    // What it wants of its field i.
    fn want(self, i: usize) -> Wanted
        ensures { want_of result ≡ want_in (row_at (number_of self)) i }
    {
        let own = self.wants();
        if i < own.len() {
            return own[i];
        }
        if !self.repeats() {
            return Wanted::Text;
        }
        if (i - own.len()) % 2 == 0 {
            return Wanted::Basic;
        }
        Wanted::Long
    }
}

// The first of these commands whose type id the `size` bytes from `at` on are.
fn named(names: &[Name], s: &[u8], at: usize, size: usize) -> Option<Name>
    requires { at < 8589934592 }
    ensures { result ≡ find (λ c. is_word s.now at size (id_of c)) names.now }
{
    names.iter().copied().find(|c| word(s, at, size, c.id()))
}

// Where the judge looks in the header: the type frame's place and code, the place after it, and that of the status
// byte.
#[derive(Clone, Copy)]
struct Looks {
    kind: usize,
    code: usize,
    next: usize,
    status: usize,
}

// An accepted message, the number of its fields, and the table that has their rows.
#[derive(Clone, Copy)]
struct Rows<'a> {
    s: &'a [u8],
    n: usize,
    table: &'a [u32],
    ghost in_range: { (n ≤ most_fields) × (row_size * n ≤ length table.now) },
}

impl Rows<'_> {
    // Whether field i of a command passes the test of this refusal: of its code, or else of its string.
    #[tactic(auto, unfolding(sim0mq::specs::Table::row_size))]
    fn right(&self, name: Name, reason: Reason, i: usize) -> bool
        requires { i < self.now.n }
        ensures { (f : F.Field) → Cell self.now.table.now (row_size * i) f
            → result ≡ passes_of (number_said reason) self.now.s.now (want_in (row_at (number_of name)) i) f }
    {
        let at = ROW * i;
        let want = name.want(i);
        match reason {
            Reason::FieldCode => {
                let place = wide32(self.table[at + 1]);
                want.takes(wide32(self.table[at]), byte_at(self.s, place + 1))
            }
            _ => want.reads(
                self.s,
                wide32(self.table[at + 2]),
                wide32(self.table[at + 3]),
            ),
        }
    }

    // The fields of a command pass the test of this refusal, the earlier first.
    #[tactic(auto, unfolding(sim0mq::specs::Table::row_size))]
    fn each(&self, name: Name, reason: Reason) -> Result<(), Refusal>
        ensures { (fs : List F.Field) → Held self.now.table.now self.now.n fs
            → done result ≡ each_of self.now.s.now (row_at (number_of name)) (number_said reason) 0 fs }
    {
        for i in 0..self.n {
            if !self.right(name, reason, i) {
                return refuse(reason, wide32(self.table[ROW * i + 1]));
            }
        }
        Ok(())
    }

    // The number of a command's fields is right: in FM.2 the sixth says how many pairs follow.
    #[tactic(auto, unfolding(sim0mq::specs::Table::row_size))]
    fn counted(&self, kind: usize, name: Name) -> Result<(), Refusal>
        ensures { (fs : List F.Field) → Held self.now.table.now self.now.n fs
            → done result ≡ number_right self.now.s.now kind (row_at (number_of name)) fs }
    {
        if !name.repeats() {
            if self.n != name.wants().len() {
                return refuse(Reason::FieldCount, kind);
            }
            return Ok(());
        }
        if self.n < 6 {
            return refuse(Reason::FieldCount, kind);
        }
        let sixth = 5 * ROW;
        if wide32(self.table[sixth]) != 2 {
            return refuse(Reason::FieldCode, wide32(self.table[sixth + 1]));
        }
        let first = wide32(self.table[sixth + 2]);
        if 128 <= byte_at(self.s, first) {
            return refuse(Reason::FieldCount, kind);
        }
        if self.n != 6 + 2 * four(self.s, first) {
            return refuse(Reason::FieldCount, kind);
        }
        Ok(())
    }

    // The fields of a command: their number, their codes, their strings.
    fn fields(&self, kind: usize, name: Name) -> Result<Name, Refusal>
        ensures { (fs : List F.Field) → Held self.now.table.now self.now.n fs
            → command_as result ≡ fields_right self.now.s.now kind (number_of name) fs }
    {
        self.counted(kind, name)?;
        self.each(name, Reason::FieldCode)?;
        self.each(name, Reason::Text)?;
        Ok(name)
    }

    // The command that the message is.
    fn judge(&self, l: Looks) -> Result<Name, Refusal>
        requires { l.kind < 4294967296 }
        ensures { (fs : List F.Field) → Held self.now.table.now self.now.n fs
            → command_as result ≡ command_of self.now.s.now (looks_at l.kind l.code l.next l.status) fs }
    {
        if l.code != 9 {
            return refuse(Reason::MessageType, l.kind);
        }
        let id = l.kind + 5;
        let Some(name) = named(&NAMES, self.s, id, l.next.saturating_sub(id)) else {
            return refuse(Reason::MessageType, l.kind);
        };
        if byte_at(self.s, l.status) != name.status() {
            return refuse(Reason::FieldCount, l.kind);
        }
        self.fields(l.kind, name)
    }
}

// Which command the message is, by a table that holds its rows; 14 where it has no room for them.
fn command_by(message: &[u8], table: &mut [u32]) -> Result<Name, Refusal>
    ensures { command_as result ≡ commanded_by (length table.old) message.now }
{
    let answer = read(message, table);
    let found = answer.said?;
    let rows = Rows {
        s: message,
        n: found.fields,
        table,
    };
    rows.judge(Looks {
        kind: answer.frames[4].place,
        code: answer.frames[4].code,
        next: answer.frames[5].place,
        status: answer.frames[6].place + 1,
    })
}

// Which command the message is. Only FM.2 has more than twelve fields, so a table of twelve rows is tried first.
pub fn command(message: &[u8]) -> Result<Name, Refusal>
    ensures { command_as result ≡ commanded message.now }
{
    let mut few = [0u32; 12 * ROW];
    match command_by(message, &mut few) {
        Ok(name) => Ok(name),
        Err(r) => match r.reason {
            Reason::TooShort => {
                let mut all = [0u32; FIELDS * ROW];
                command_by(message, &mut all)
            }
            _ => Err(r),
        },
    }
}
