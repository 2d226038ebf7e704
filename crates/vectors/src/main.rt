// Runs the cases of cases.txt and prints each that goes wrong, then how many there are and how many of them are wrong.
#![tactic(auto)]

use std::{fs, io};
use vectors_lines::part;
use vectors_runs::{Case, Run, next};
use vectors_texts::{rewrites, values};

// The run after its line; at the end of a case, that case is run.
fn turn(
    rt: &impl Print,
    text: &[u8],
    run: Run,
    message: &mut [u8],
    expected: &mut [u8],
) -> io::Result<Run> {
    let line = part(text, run.from, run.to);
    if let Some(case) = run.begun
        && line == b"end".as_slice()
    {
        return end(rt, text, run, case, message, expected);
    }
    vectors_runs::turn(rt, line, run, message, expected)
}

// `end`: the case is run, and its listing, or what asking, blanking or writing answers, compared. An accepted message
// that writing does not give back has a line more, which no case expects.
fn end(
    rt: &impl Print,
    text: &[u8],
    run: Run,
    case: Case,
    message: &[u8],
    expected: &[u8],
) -> io::Result<Run> {
    let mut told = [0u8; 16384];
    let own = part(message, 0, case.length);
    let answered = answer(case, part(text, case.to, run.from), own, &mut told);
    let n = rewrites::answer(own, &mut told, answered);
    vectors_runs::ended(rt, text, run, part(&told, 0, n), expected)
}

// The length of the answer of the case that has these lines, put at the front of `out`: of what asking, blanking or
// writing answers, or of the listing of `message`.
fn answer(case: Case, text: &[u8], message: &[u8], out: &mut [u8]) -> usize {
    if let Some(k) = case.asks {
        return values::answer(message, k, out);
    }
    if case.blanks {
        return vectors_copies::answer(message, case.output, out);
    }
    if case.writes {
        return vectors_calls::answer(text, message, case.output, out);
    }
    vectors_runs::listed(case, message, out)
}

// The run of every line of `text`.
fn all(rt: &impl Print, text: &[u8]) -> io::Result<Run> {
    let mut message = [0u8; 66000];
    let mut expected = [0u8; 16384];
    let mut run = vectors_runs::start();
    let mut at = 0usize;
    for line in text.split_inclusive(|b| *b == b'\n') {
        run.line = next(run.line);
        run.from = at;
        run.to = at.saturating_add(line.strip_suffix(b"\n").unwrap_or(line).len());
        run = turn(rt, text, run, &mut message, &mut expected)?;
        at = at.saturating_add(line.len());
    }
    Ok(run)
}

// Runs the cases of the file cases.txt.
fn main(rt: HostRuntime) -> io::Result<()> {
    let text = fs::read(&rt, "cases.txt")?;
    let run = all(&rt, text.as_slice())?;
    vectors_runs::report(&rt, run)?;
    Ok(())
}
