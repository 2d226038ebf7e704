// Brings back a recording whose upload was cut: standard input is the file, standard output the new recording, and
// standard error a line of what was kept, what was dropped and why it stopped there.
#![tactic(auto)]

use recordings_format::{ENTRY, MOST, TRAILER};
use recordings_fronts::Stop;
use recordings_salvaging::Report;
use std::io;

// How many bytes a file has at most: three and a half mebibytes.
const FILE: usize = 3670016;

// How many bytes the tail of a recording has at most: its entries and the trailer.
const TAIL: usize = MOST * ENTRY + TRAILER;

// Writes the report: how many messages were kept, how many bytes dropped, and why it stopped.
fn report(rt: &impl Eprint, r: Report) -> io::Result<()> {
    eprint!(rt; "kept {} dropped {}", r.kept, r.dropped)?;
    match r.stop {
        Stop::AtEnd => rt.eprintln(" stopped at the end"),
        Stop::AtMost => rt.eprintln(" stopped at 4096 messages"),
        Stop::AtFault(f) => eprintln!(rt; " {f}"),
    }
}

// Writes the recording to standard output; a line to standard error where that cannot be done.
fn write(rt: &(impl Print + Eprint), recording: &[u8]) -> io::Result<()> {
    rt.write_all(recording)
        .or_else(|_| rt.eprintln("salvage: cannot write standard output"))
}

// Writes the recording of what can be kept of the file, and the report.
fn save(rt: &(impl Print + Eprint + AllocGlobal), file: &[u8]) -> io::Result<()> {
    let mut out = vec![in rt.alloc(); 0; FILE + TAIL]?;
    match recordings_salvaging::salvage(file, &mut out) {
        Ok(r) => {
            write(rt, out.get(..r.length).unwrap_or(&[]))?;
            report(rt, r)
        }
        Err(r) => eprintln!(rt; "salvage: {r}"),
    }
}

// Salvages standard input; a line to standard error where it cannot be read, or has more bytes than there is room for.
fn main(rt: HostRuntime) -> io::Result<()> {
    let mut bytes = vec![in rt.alloc(); 0; FILE + 1]?;
    match programs_input::fill(&mut rt.stdin(), &mut bytes) {
        Ok(n) if FILE < n => rt.eprintln("salvage: the file has more than 3670016 bytes"),
        Ok(n) => save(&rt, &bytes[..n]),
        Err(_) => rt.eprintln("salvage: cannot read standard input"),
    }
}
