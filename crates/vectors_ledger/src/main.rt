// Runs the commands of cases.txt, one a line, over one ledger and one book of senders, and writes what each answers.
// The head of that file says what the commands are; what must be written stands in `stdout`.
#![tactic(auto)]

use ledger::{Mustered, muster_framed};
use ledger_decks::Ledger;
use ledger_recordings::{Reckoned, reckon};
use programs_pieces::put;
use reading_header::Frame;
use senders::Closed;
use senders_book::Book;
use std::{fs, io};
use vectors_lines::wholes::signed;
use vectors_lines::{number, part, spaced};
use vectors_tokens::added;

// How many bytes a message has at most.
const ROOM: usize = 128;

// How many bytes a recording has at most.
const RECORDING: usize = 1024;

// The ledger and the book.
#[derive(Clone, Copy)]
struct Both {
    ledger: Ledger,
    book: Book,
}

// Writes a line that is not understood, and hands back ledger and book.
fn lost(rt: &impl Print, line: &[u8], both: Both) -> io::Result<Both> {
    rt.write_all(b"unknown: ")?;
    rt.write_all(line)?;
    println!(rt)?;
    Ok(both)
}

// Writes what mustering answers, and hands back ledger and book after it.
fn told(rt: &impl Print, line: &[u8], m: Mustered) -> io::Result<Both> {
    rt.write_all(line)?;
    match m.said {
        Ok(i) => println!(rt; ": place {i}")?,
        Err(r) => println!(rt; ": {r}")?,
    }
    let ledger = m.ledger;
    let book = m.book;
    Ok(Both { ledger, book })
}

// Writes what closing answers, and hands back the ledger, and the book after it.
fn closed(rt: &impl Print, line: &[u8], ledger: Ledger, c: Closed) -> io::Result<Both> {
    rt.write_all(line)?;
    if c.held {
        println!(rt; ": held")?;
    } else {
        println!(rt; ": none held")?;
    }
    let book = c.book;
    Ok(Both { ledger, book })
}

// The length of the muster message with this number, of which `text` gives all from the status frame on, from `from`
// on; none where that is not understood or does not fit.
fn built(text: &[u8], from: usize, number: i64, message: &mut [u8]) -> Option<usize> {
    let first = put(
        b"\x09\0\0\0\x05SIM01\x01\0\x01\x09\0\0\0\x01A\x01\0\x03\x09\0\0\0\x05MUS.1\x03",
        message,
        0,
    );
    let status = put(b"\0\0\0\0\0\0\0\0", message, first);
    writing_puts::put_big(message, first, 8, number.cast_unsigned());
    added(text, from, message, status)
}

// `muster N BYTES`: musters the message.
fn muster(text: &[u8], both: Both) -> Option<Mustered> {
    let mut message = [0u8; ROOM];
    let w = signed(text, 0);
    let n = built(text, w.at, w.value?, &mut message)?;
    Some(ledger::muster(both.ledger, both.book, part(&message, 0, n)))
}

// `message BYTES`: musters them.
fn raw(text: &[u8], both: Both) -> Option<Mustered> {
    let mut message = [0u8; ROOM];
    let n = added(text, 0, &mut message, 0)?;
    Some(ledger::muster(both.ledger, both.book, part(&message, 0, n)))
}

// Eight frames, of which the type, the status and the number of fields stand at these places, and the sender and the
// number where they do in the message of `muster`.
fn frames(kind: usize, status: usize, count: usize) -> [Frame; 8] {
    let mut all = [Frame { place: 0, code: 0 }; 8];
    all[2].place = 13;
    all[4].place = kind;
    all[5].place = 32;
    all[6].place = status;
    all[7].place = count;
    all
}

// `framed N A B C F BYTES`: musters the message by frames of which the type stands at A, the status at B and the number
// of fields at C, with F fields.
fn framed(text: &[u8], both: Both) -> Option<Mustered> {
    let mut message = [0u8; ROOM];
    let w = signed(text, 0);
    let a = spaced(text, w.at);
    let b = spaced(text, a.at);
    let c = spaced(text, b.at);
    let f = spaced(text, c.at);
    let n = built(text, f.at, w.value?, &mut message)?;
    let by = frames(a.or_largest(), b.or_largest(), c.or_largest());
    let own = part(&message, 0, n);
    Some(muster_framed(both.ledger, both.book, own, by, f.or_largest()))
}

// `close C BYTES`: closes the sender of type code C with these value bytes.
fn close(text: &[u8], book: Book) -> Option<Closed> {
    let mut id = [0u8; ROOM];
    let c = number(text, 0);
    let n = added(text, c.at, &mut id, 0)?;
    Some(senders::close(book, c.or_largest(), part(&id, 0, n)))
}

// `deck D N`: the ledger and the book with N heads on deck D.
fn deck(text: &[u8], both: Both) -> Option<Both> {
    let d = number(text, 0);
    let n = spaced(text, d.at);
    let mut heads = both.ledger.heads;
    *heads.get_mut(d.value?)? = u16::try_from(n.value?).ok()?;
    let book = both.book;
    let ledger = Ledger { heads };
    Some(Both { ledger, book })
}

// `recording BYTES`: what reckoning them comes to.
fn recording(text: &[u8]) -> Option<Reckoned> {
    let mut bytes = [0u8; RECORDING];
    let n = added(text, 0, &mut bytes, 0)?;
    Some(reckon(part(&bytes, 0, n)))
}

// `decks`: writes how many heads are on each deck.
fn listing(rt: &impl Print, ledger: &Ledger) -> io::Result<()> {
    print!(rt; "decks")?;
    for n in ledger.heads {
        print!(rt; " {n}")?;
    }
    println!(rt)
}

// Writes what a recording comes to: the messages applied and refused, or the refusal; and the heads on each deck.
fn reckoned(rt: &impl Print, r: Reckoned) -> io::Result<()> {
    match r.said {
        Ok(n) => println!(rt; "recording: applied {n} refused {}", r.refused)?,
        Err(f) => println!(rt; "recording: {f}")?,
    }
    listing(rt, &r.ledger)
}

// What a line that musters answers; none where it is not understood.
fn mustered(line: &[u8], both: Both) -> Option<Mustered> {
    if let Some(text) = line.strip_prefix(b"muster ") {
        return muster(text, both);
    }
    if let Some(text) = line.strip_prefix(b"message ") {
        return raw(text, both);
    }
    framed(line.strip_prefix(b"framed ")?, both)
}

// Ledger and book after a line that calls them. A recording leaves them as they are.
fn called(rt: &impl Print, line: &[u8], both: Both) -> io::Result<Both> {
    if let Some(m) = mustered(line, both) {
        return told(rt, line, m);
    }
    if let Some(text) = line.strip_prefix(b"close ")
        && let Some(c) = close(text, both.book)
    {
        return closed(rt, line, both.ledger, c);
    }
    if let Some(text) = line.strip_prefix(b"deck ")
        && let Some(after) = deck(text, both)
    {
        return Ok(after);
    }
    if let Some(text) = line.strip_prefix(b"recording ")
        && let Some(r) = recording(text)
    {
        reckoned(rt, r)?;
        return Ok(both);
    }
    lost(rt, line, both)
}

// The empty ledger and the empty book.
fn fresh() -> Both {
    let ledger = ledger::empty();
    let book = senders::empty();
    Both { ledger, book }
}

// Ledger and book after a line that says something.
fn turn(rt: &impl Print, line: &[u8], both: Both) -> io::Result<Both> {
    match line {
        [b'=', b' ', text @ ..] => {
            rt.write_all(text)?;
            println!(rt)?;
            Ok(both)
        }
        b"empty" => Ok(fresh()),
        b"decks" => {
            listing(rt, &both.ledger)?;
            Ok(both)
        }
        _ => called(rt, line, both),
    }
}

// Whether a line says nothing: it is empty or begins with #.
fn comment(line: &[u8]) -> bool {
    matches!(line, [] | [b'#', ..])
}

// Runs every line of `text`, from the empty ledger and the empty book on.
fn all(rt: &impl Print, text: &[u8]) -> io::Result<()> {
    let mut both = fresh();
    for line in text.split(|b| *b == b'\n') {
        if !comment(line) {
            both = turn(rt, line, both)?;
        }
    }
    Ok(())
}

// Runs the commands of the file cases.txt.
fn main(rt: HostRuntime) -> io::Result<()> {
    let text = fs::read(&rt, "cases.txt")?;
    all(&rt, text.as_slice())
}
