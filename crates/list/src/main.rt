// Lists the message on standard input: the lines that document 01 shows under "Examples".
#![tactic(auto)]

use sim0mq::{FIELDS, LIMIT, ROW};
use std::io;

// Writes what reading answers of `message`, as text, to standard output; a line to standard error where that cannot be
// written.
fn print(rt: &(impl Print + Eprint), message: &[u8]) -> io::Result<()> {
    let mut table = [0u32; FIELDS * ROW];
    let said = reading::read(message, &mut table).said;
    let mut text = [0u8; 16384];
    let n = programs_listing::listing(said, &table, &mut text);
    rt.write_all(&text[..n])
        .or_else(|_| rt.eprintln("list: cannot write standard output"))
}

// Lists standard input, of which one byte more than a message may have is read; a line to standard error where it
// cannot be read.
fn main(rt: HostRuntime) -> io::Result<()> {
    let mut bytes = [0u8; LIMIT + 1];
    match programs_input::fill(&mut rt.stdin(), &mut bytes) {
        Ok(n) => print(&rt, &bytes[..n]),
        Err(_) => rt.eprintln("list: cannot read standard input"),
    }
}
