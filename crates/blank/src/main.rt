// Writes the blanked copy of the message on standard input, or the line that `list` prints where the message is
// refused.
#![tactic(auto)]

use sim0mq::{LIMIT, Refusal};
use std::io;

// Writes `bytes` to standard output; a line to standard error where that cannot be done.
fn write(rt: &(impl Print + Eprint), bytes: &[u8]) -> io::Result<()> {
    rt.write_all(bytes)
        .or_else(|_| rt.eprintln("blank: cannot write standard output"))
}

// Writes the line of a refusal.
fn refused(rt: &(impl Print + Eprint), refusal: Refusal) -> io::Result<()> {
    let mut line = [0u8; 72];
    let n = programs_listing::first_line(Err(refusal), &mut line);
    write(rt, &line[..n])
}

// Writes the blanked copy of `message`, or the line of its refusal.
fn print(rt: &(impl Print + Eprint), message: &[u8]) -> io::Result<()> {
    let mut copy = [0u8; LIMIT];
    match blanking::blank(message, &mut copy) {
        Ok(length) => write(rt, &copy[0..length]),
        Err(refusal) => refused(rt, refusal),
    }
}

// Blanks standard input, of which one byte more than a message may have is read; a line to standard error where it
// cannot be read.
fn main(rt: HostRuntime) -> io::Result<()> {
    let mut bytes = [0u8; LIMIT + 1];
    match programs_input::fill(&mut rt.stdin(), &mut bytes) {
        Ok(n) => print(&rt, &bytes[..n]),
        Err(_) => rt.eprintln("blank: cannot read standard input"),
    }
}
