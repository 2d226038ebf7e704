// What has been run of a case file, what each line of a case adds to it, and how a case ends, given what it was
// answered with.
#![tactic(auto)]

ghost use Rattle.std.specs.Prelude.{◌≡◌, ◌+◌, ◌≤◌, min, length, IfOk, None};

use programs_pieces::put;
use sim0mq::{FIELDS, ROW};
use std::io;
use vectors_lines::{ROOM, find, last, part};

// How many numbers a table has at most, and has where a case does not say.
const NUMBERS: usize = FIELDS * ROW;

// What has been run so far, and the case that is being read.
#[derive(Clone, Copy)]
pub struct Run {
    // The line: its number from 1, and where it stands in the text.
    pub line: usize,
    pub from: usize,
    pub to: usize,
    // How many cases have been run, and how many of them, and lines, were wrong.
    pub cases: usize,
    pub wrong: usize,
    // The case that has begun and has not ended.
    pub begun: Option<Case>,
}

// A case that is being read.
#[derive(Clone, Copy)]
pub struct Case {
    // Where its first line stands in the text.
    pub from: usize,
    pub to: usize,
    // The lengths of its message and of the text that it expects.
    pub length: usize,
    pub expects: usize,
    // How many numbers the table has that it lends.
    pub lends: Option<usize>,
    // The field that it asks for.
    pub asks: Option<usize>,
    // Whether its message is blanked, whether it writes, and how many bytes the output has.
    pub blanks: bool,
    pub writes: bool,
    pub output: usize,
}

// Nothing run yet.
pub fn start() -> Run
    ensures { (result.cases ≡ 0) × (result.wrong ≡ 0) × (result.begun ≡ None) }
{
    Run {
        line: 0,
        from: 0,
        to: 0,
        cases: 0,
        wrong: 0,
        begun: None,
    }
}

// One more than n; the largest number stays as it is.
pub fn next(n: usize) -> usize
    ensures { result ≡ min (n + 1) 18446744073709551615 }
{
    n.saturating_add(1)
}

// The run after a line that is not understood, which it says.
fn lost(rt: &impl Print, run: Run) -> io::Result<Run>
    ensures cases { IfOk result (λ r. r.cases ≡ run.cases) }
    ensures wrong { IfOk result (λ r. run.wrong ≤ r.wrong) }
    ensures begun { IfOk result (λ r. r.begun ≡ run.begun) }
{
    println!(rt; "line {}: not understood", run.line)?;
    Ok(Run {
        wrong: next(run.wrong),
        ..run
    })
}

// The run with the case that has begun left as it is: a case that has no end is wrong.
fn closed(rt: &impl Print, run: Run) -> io::Result<Run>
    ensures cases { IfOk result (λ r. r.cases ≡ run.cases) }
    ensures wrong { IfOk result (λ r. run.wrong ≤ r.wrong) }
{
    if run.begun.is_some() {
        return lost(rt, run);
    }
    Ok(run)
}

// The run after its line, where that does not end a case: a comment, the beginning of a case, or a line of one. A case
// that another follows before its end is wrong.
pub fn turn(
    rt: &impl Print,
    line: &[u8],
    run: Run,
    message: &mut [u8],
    expected: &mut [u8],
) -> io::Result<Run>
    ensures cases { IfOk result (λ r. r.cases ≡ run.cases) }
    ensures wrong { IfOk result (λ r. run.wrong ≤ r.wrong) }
{
    if matches!(line, [] | [b'#', ..]) {
        return Ok(run);
    }
    if line.starts_with(b"case ") {
        let after = closed(rt, run)?;
        return Ok(Run {
            begun: Some(fresh(run.from, run.to)),
            ..after
        });
    }
    let Some(case) = run.begun else {
        return lost(rt, run);
    };
    let Some(after) = deed(line, case, message, expected) else {
        return lost(rt, run);
    };
    Ok(Run {
        begun: Some(after),
        ..run
    })
}

// `case NAME`, a line that stands here: a case with no bytes and the whole table.
fn fresh(from: usize, to: usize) -> Case {
    Case {
        from,
        to,
        length: 0,
        expects: 0,
        lends: Some(NUMBERS),
        asks: None,
        blanks: false,
        writes: false,
        output: ROOM,
    }
}

// The case after a line of it, by the line's first word; none where it is not understood.
fn deed(line: &[u8], case: Case, message: &mut [u8], expected: &mut [u8]) -> Option<Case> {
    if let Some(tokens) = line.strip_prefix(b"bytes ") {
        let length = vectors_tokens::added(tokens, 0, message, case.length)?;
        return Some(Case { length, ..case });
    }
    if let Some(numbers) = line.strip_prefix(b"set ") {
        return set(numbers, case, message);
    }
    if let Some(text) = line.strip_prefix(b"gives ") {
        return gives(text, case, expected);
    }
    if line == b"no table".as_slice() {
        return Some(Case {
            lends: None,
            ..case
        });
    }
    numbered(line, case)
}

// The case after a line of it that is a word and a number, or is run when the case ends: a call of the writer, or what
// is said of its state or output.
fn numbered(line: &[u8], case: Case) -> Option<Case> {
    if let Some(n) = line.strip_prefix(b"cut ") {
        let length = up_to(n, case.length)?;
        return Some(Case { length, ..case });
    }
    if let Some(n) = line.strip_prefix(b"table ") {
        let room = up_to(n, NUMBERS)?;
        let lends = case.lends.map(|_| room);
        return Some(Case { lends, ..case });
    }
    if let Some(k) = line.strip_prefix(b"asks ") {
        let asks = Some(last(k, 0).unwrap_or(usize::MAX));
        return Some(Case { asks, ..case });
    }
    if let Some(n) = line.strip_prefix(b"blanks ") {
        let output = up_to(n, ROOM)?;
        return Some(Case {
            blanks: true,
            output,
            ..case
        });
    }
    if let Some(n) = line.strip_prefix(b"room ") {
        let output = up_to(n, ROOM)?;
        return Some(Case { output, ..case });
    }
    if writes(line) {
        return Some(Case {
            writes: true,
            ..case
        });
    }
    None
}

// The number that `text` is, if it is at most `most`.
fn up_to(text: &[u8], most: usize) -> Option<usize> {
    last(text, 0).filter(|n| *n <= most)
}

// Whether a case with this line writes: the line is a call of the writer, or says what its state is or its output
// holds.
fn writes(line: &[u8]) -> bool {
    line == b"closes".as_slice()
        || line.starts_with(b"opens ")
        || line.starts_with(b"adds")
        || line.starts_with(b"state ")
        || line.starts_with(b"holds ")
}

// `set I B`: byte I of the message is B.
fn set(numbers: &[u8], case: Case, message: &mut [u8]) -> Option<Case> {
    let space = find(numbers, 0, b' ');
    let i = last(part(numbers, 0, space), 0)?;
    let b = last(numbers, space.saturating_add(1))?;
    if case.length <= i {
        return None;
    }
    *message.get_mut(i)? = u8::try_from(b).ok()?;
    Some(case)
}

// `gives TEXT`: one more line of the text that is expected.
fn gives(text: &[u8], case: Case, expected: &mut [u8]) -> Option<Case> {
    let mut expects = put(text, expected, case.expects);
    expects = put(b"\n", expected, expects);
    if expected.len() < expects {
        return None;
    }
    Some(Case { expects, ..case })
}

// The length of the listing of `message`, put at the front of `out`: its first line alone where the case lends no
// table.
pub fn listed(case: Case, message: &[u8], out: &mut [u8]) -> usize
    ensures { result ≤ length out.new }
{
    match case.lends {
        None => programs_listing::first_line(reading::judge(message).said, out),
        Some(room) if room <= NUMBERS => {
            let mut table = [0u32; NUMBERS];
            tabled(message, &mut table[..room], out)
        }
        Some(_) => 0,
    }
}

// The length of the listing of `message`, read with this table.
fn tabled(message: &[u8], table: &mut [u32], out: &mut [u8]) -> usize
    ensures { result ≤ length out.new }
{
    let said = reading::read(message, table).said;
    programs_listing::listing(said, table, out)
}

// The run after the end of a case that was answered with `given`. Where that is empty, or not the text that the case
// expects, the case is wrong, and its name and the answer are printed.
pub fn ended(
    rt: &impl Print,
    text: &[u8],
    run: Run,
    given: &[u8],
    expected: &[u8],
) -> io::Result<Run>
    ensures begun { IfOk result (λ r. r.begun ≡ None) }
    ensures cases { IfOk result (λ r. r.cases ≡ min (run.cases + 1) 18446744073709551615) }
    ensures wrong { IfOk result (λ r. run.wrong ≤ r.wrong) }
{
    let after = Run {
        begun: None,
        cases: next(run.cases),
        ..run
    };
    let Some(case) = run.begun else {
        return lost(rt, after);
    };
    if !given.is_empty() && given == part(expected, 0, case.expects) {
        return Ok(after);
    }
    let line = part(text, case.from, case.to);
    rt.write_all(b"wrong: ")?;
    rt.write_all(part(line, 5, line.len()))?;
    rt.write_all(b"\n")?;
    rt.write_all(given)?;
    Ok(Run {
        wrong: next(run.wrong),
        ..after
    })
}

// Prints how many cases there are, and how many wrong ones, which it answers: a case that has no end is wrong too.
pub fn report(rt: &impl Print, run: Run) -> io::Result<usize>
    ensures { IfOk result (λ n. run.wrong ≤ n) }
{
    let after = closed(rt, run)?;
    println!(rt; "{} cases, {} wrong", after.cases, after.wrong)?;
    Ok(after.wrong)
}
