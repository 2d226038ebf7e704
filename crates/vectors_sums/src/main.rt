// Runs the cases of cases.txt, two scalars a line, and writes what their sum and their difference are. The head of that
// file says how a case is written; what must be written stands in `stdout`.
#![tactic(auto)]

use sim0mq::Refusal;
use sim0mq_kinds::Scalar;
use std::{fs, io};
use sums::{difference, sum};
use vectors_lines::{find, part};
use vectors_scalar_lines::scalar;

// Writes a line that is not understood.
fn lost(rt: &impl Print, line: &[u8]) -> io::Result<()> {
    rt.write_all(b"unknown: ")?;
    rt.write_all(line)?;
    rt.write_all(b"\n")
}

// Writes a double by its bits.
fn double(rt: &impl Print, x: f64) -> io::Result<()> {
    if x.is_nan() {
        return print!(rt; " a NaN");
    }
    print!(rt; " double {}", x.to_bits())
}

// Writes what a sum or a difference is.
fn told(rt: &impl Print, answer: Result<Scalar, Refusal>) -> io::Result<()> {
    match answer {
        Ok(Scalar::DoubleUnit(x, mark)) => {
            double(rt, x)?;
            print!(rt;
                " unit {} currency {} display {}",
                mark.unit, mark.currency, mark.display
            )
        }
        Ok(_) => print!(rt; " no double with a unit"),
        Err(refusal) => print!(rt; " {refusal}"),
    }
}

// Writes the sum and the difference of two scalars.
fn combined(rt: &impl Print, a: Scalar, b: Scalar) -> io::Result<()> {
    print!(rt; "sum")?;
    told(rt, sum(a, b))?;
    print!(rt; " difference")?;
    told(rt, difference(a, b))?;
    println!(rt)
}

// The two scalars of a case, which an ampersand between two spaces parts; none where the line is not understood.
fn pair(line: &[u8]) -> Option<(Scalar, Scalar)> {
    let at = find(line, 0, b'&');
    let before = at.checked_sub(1)?;
    let rest = part(line, at, line.len());
    let first = scalar(part(line, 0, before))?;
    let second = scalar(part(rest, 2, rest.len()))?;
    Some((first, second))
}

// Runs a line: a comment, a heading, or a case.
fn turn(rt: &impl Print, line: &[u8]) -> io::Result<()> {
    if line.is_empty() || line.starts_with(b"#") {
        return Ok(());
    }
    if line.starts_with(b"= ") {
        rt.write_all(line)?;
        return println!(rt);
    }
    match pair(line) {
        Some((a, b)) => combined(rt, a, b),
        None => lost(rt, line),
    }
}

fn main(rt: HostRuntime) -> io::Result<()> {
    let text = fs::read(&rt, "cases.txt")?;
    for line in text.split(|b| *b == b'\n') {
        turn(&rt, line)?;
    }
    Ok(())
}
