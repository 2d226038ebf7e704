// Writes the blanked copy of the recording on standard input, or the line of its refusal.
#![tactic(auto)]

use recordings_blanking::blank_recording;
use sim0mq::Refusal;
use std::alloc::{AllocError, Global};
use std::io;

// How many bytes a recording has at most: three and a half mebibytes.
const RECORDING: usize = 3670016;

// Writes `bytes` to standard output; a line to standard error where that cannot be done.
fn write(rt: &(impl Print + Eprint), bytes: &[u8]) -> io::Result<()> {
    rt.write_all(bytes).or_else(|_| rt.eprintln("blank_recording: cannot write standard output"))
}

// Writes the line of a refusal.
fn refused(rt: &(impl Print + Eprint), refusal: Refusal) -> io::Result<()> {
    let mut line = [0u8; 72];
    let n = programs_listing::first_line(Err(refusal), &mut line);
    write(rt, &line[..n])
}

// Room for the recording, and one byte more.
fn room(alloc: Global) -> Result<Vec<u8>, AllocError> {
    vec![in alloc; 0; RECORDING + 1]
}

// Writes the blanked copy of `recording`, or the line of its refusal.
fn print(rt: &(impl Print + Eprint + AllocGlobal), recording: &[u8]) -> io::Result<()> {
    let mut copy = room(rt.alloc())?;
    match blank_recording(recording, &mut copy) {
        Ok(length) => write(rt, copy.get(..length).unwrap_or(&[])),
        Err(refusal) => refused(rt, refusal),
    }
}

// Blanks standard input; a line to standard error where it cannot be read, or has more bytes than there is room for.
fn main(rt: HostRuntime) -> io::Result<()> {
    let mut bytes = room(rt.alloc())?;
    match programs_input::fill(&mut rt.stdin(), &mut bytes) {
        Ok(n) if RECORDING < n => {
            rt.eprintln("blank_recording: the recording has more than 3670016 bytes")
        }
        Ok(n) => print(&rt, &bytes[..n]),
        Err(_) => rt.eprintln("blank_recording: cannot read standard input"),
    }
}
