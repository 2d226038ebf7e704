// Judges each message of cases.txt as a command, and writes its type id or the refusal. What must be written stands in
// `stdout`.
#![tactic(auto)]

use commands::{Name, command};
use std::{fs, io};
use vectors_lines::{find, part};
use vectors_tokens::added;

// How many bytes a message of the file has at most.
const MOST: usize = 4096;

// The type id of a command.
fn id(name: Name) -> &'static str {
    match name {
        Name::StartFederate => "FM.1",
        Name::StarterRequestStatus => "FS.1",
        Name::Status => "MC.1",
        Name::FederateStarted => "FS.2",
        Name::SimRunControl => "FM.2",
        Name::AckNak => "MC.2",
        Name::SetParameter => "FM.3",
        Name::SimStart => "FM.4",
        Name::RequestStatus => "FM.5",
        Name::RequestStatistics => "FM.6",
        Name::Statistics => "MC.3",
        Name::StatisticsError => "MC.4",
        Name::SimReset => "FM.7",
        Name::KillFederate => "FM.8",
        Name::KillAll => "FM.9",
        Name::KillModel => "FS.3",
        Name::FederateKilled => "FS.4",
        Name::FederatesKilled => "FS.5",
    }
}

// Writes what judging the message answers.
fn judged(rt: &impl Print, message: &[u8]) -> io::Result<()> {
    match command(message) {
        Ok(name) => print!(rt; " {}", id(name)),
        Err(refusal) => print!(rt; " {refusal}"),
    }
}

// Judges the message whose bytes a line tells from `from` on.
fn told(rt: &impl Print, line: &[u8], from: usize) -> io::Result<()> {
    let mut message = [0u8; MOST];
    match added(line, from, &mut message, 0) {
        Some(n) => judged(rt, part(&message, 0, n)),
        None => print!(rt; " is not understood"),
    }
}

// Writes what a line says of itself, and what judging its message answers; a comment says nothing.
fn turn(rt: &impl Print, line: &[u8]) -> io::Result<()> {
    if line.is_empty() || line.starts_with(b"#") {
        return Ok(());
    }
    let colon = find(line, 0, b':');
    rt.write_all(part(line, 0, colon))?;
    print!(rt; ":")?;
    told(rt, line, colon.saturating_add(1))?;
    println!(rt)
}

// Judges the messages of the file cases.txt.
fn main(rt: HostRuntime) -> io::Result<()> {
    let text = fs::read(&rt, "cases.txt")?;
    for line in text.split(|b| *b == b'\n') {
        turn(&rt, line)?;
    }
    Ok(())
}
