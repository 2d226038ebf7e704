// Runs the commands of cases.txt, one a line, over one book of senders, and writes what each answers. The head of that
// file says what the commands are; what must be written stands in `stdout`.
#![tactic(auto)]

use programs_pieces::put;
use reading_header::Frame;
use senders::{Closed, Taken, take_framed};
use senders_book::{Book, ID_BYTES, Id, Sender};
use std::{fs, io};
use vectors_lines::wholes::signed;
use vectors_lines::{number, part, spaced};
use vectors_tokens::added;

// How many bytes a message has at most.
const ROOM: usize = 128;

// Writes a line that is not understood, and hands back the book.
fn lost(rt: &impl Print, line: &[u8], book: Book) -> io::Result<Book> {
    rt.write_all(b"unknown: ")?;
    rt.write_all(line)?;
    println!(rt)?;
    Ok(book)
}

// Writes what taking answers, and hands back the book after it.
fn told(rt: &impl Print, line: &[u8], t: Taken) -> io::Result<Book> {
    rt.write_all(line)?;
    match t.said {
        Ok(i) => println!(rt; ": place {i}")?,
        Err(r) => println!(rt; ": {r}")?,
    }
    Ok(t.book)
}

// Writes what closing answers, and hands back the book after it.
fn closed(rt: &impl Print, line: &[u8], c: Closed) -> io::Result<Book> {
    rt.write_all(line)?;
    if c.held {
        println!(rt; ": held")?;
    } else {
        println!(rt; ": none held")?;
    }
    Ok(c.book)
}

// The message's length after its frames from the receiver on, with no field; past its room where they do not fit.
fn behind(message: &mut [u8], at: usize, number: i64) -> usize {
    let first = put(b"\x01\0\x03\x01\0\x04\x03", message, at);
    let status = put(b"\0\0\0\0\0\0\0\0", message, first);
    writing_puts::put_big(message, first, 8, number.cast_unsigned());
    put(b"\0\x01\0\0", message, status)
}

// The length of the message with this number whose sender frame `text` gives from `from` on; none where that is not
// understood or does not fit.
fn built(text: &[u8], from: usize, number: i64, message: &mut [u8]) -> Option<usize> {
    let run = put(b"\x09\0\0\0\x05SIM01\x01\0\x01", message, 0);
    let sender = added(text, from, message, run)?;
    Some(behind(message, sender, number)).filter(|n| *n <= ROOM)
}

// `take N SENDER`: takes the message.
fn take(text: &[u8], book: Book) -> Option<Taken> {
    let mut message = [0u8; ROOM];
    let w = signed(text, 0);
    let n = built(text, w.at, w.value?, &mut message)?;
    Some(senders::take(book, part(&message, 0, n)))
}

// `message BYTES`: takes them.
fn raw(text: &[u8], book: Book) -> Option<Taken> {
    let mut message = [0u8; ROOM];
    let n = added(text, 0, &mut message, 0)?;
    Some(senders::take(book, part(&message, 0, n)))
}

// Eight frames, of which the sender and the number stand at these places.
fn frames(sender: usize, numbered: usize) -> [Frame; 8] {
    let mut all = [Frame { place: 0, code: 0 }; 8];
    all[2].place = sender;
    all[5].place = numbered;
    all
}

// `framed N A B SENDER`: takes the message by frames of which the sender stands at A and the number at B.
fn framed(text: &[u8], book: Book) -> Option<Taken> {
    let mut message = [0u8; ROOM];
    let w = signed(text, 0);
    let a = spaced(text, w.at);
    let b = spaced(text, a.at);
    let n = built(text, b.at, w.value?, &mut message)?;
    let by = frames(a.or_largest(), b.or_largest());
    Some(take_framed(book, part(&message, 0, n), by))
}

// `close C BYTES`: closes the sender of type code C with these value bytes.
fn close(text: &[u8], book: Book) -> Option<Closed> {
    let mut id = [0u8; ROOM];
    let c = number(text, 0);
    let n = added(text, c.at, &mut id, 0)?;
    Some(senders::close(book, c.or_largest(), part(&id, 0, n)))
}

// `place N I H C L BYTES`: the book in which place I becomes this, held where H is 1.
fn placed(text: &[u8], book: Book) -> Option<Book> {
    let mut bytes = [0u8; ID_BYTES];
    let w = signed(text, 0);
    let i = spaced(text, w.at);
    let held = spaced(text, i.at);
    let code = spaced(text, held.at);
    let length = spaced(text, code.at);
    added(text, length.at, &mut bytes, 0)?;
    let mut senders = book.senders;
    if let Some(entry) = senders.get_mut(i.or_largest()) {
        *entry = Sender {
            held: held.value == Some(1),
            number: w.value.unwrap_or(0),
            id: Id {
                code: code.or_largest(),
                length: length.or_largest(),
                bytes,
            },
        };
    }
    Some(Book { senders })
}

// Writes place i, if a sender is held there.
fn shown(rt: &impl Print, i: usize, e: &Sender) -> io::Result<()> {
    if !e.held {
        return Ok(());
    }
    let id = &e.id;
    print!(rt;
        "  {i}: number {}, type {}, length {}, bytes",
        e.number, id.code, id.length
    )?;
    for b in part(&id.bytes, 0, id.length.min(ID_BYTES)) {
        print!(rt; " {b}")?;
    }
    println!(rt)
}

// `book`: writes every place at which a sender is held.
fn listing(rt: &impl Print, book: &Book) -> io::Result<()> {
    println!(rt; "book")?;
    for (i, sender) in book.senders.iter().enumerate() {
        shown(rt, i, sender)?;
    }
    Ok(())
}

// What a line that takes a message answers; none where it is not understood.
fn taken(line: &[u8], book: Book) -> Option<Taken> {
    if let Some(text) = line.strip_prefix(b"take ") {
        return take(text, book);
    }
    if let Some(text) = line.strip_prefix(b"message ") {
        return raw(text, book);
    }
    framed(line.strip_prefix(b"framed ")?, book)
}

// The book after a line that calls it.
fn called(rt: &impl Print, line: &[u8], book: Book) -> io::Result<Book> {
    if let Some(t) = taken(line, book) {
        return told(rt, line, t);
    }
    if let Some(text) = line.strip_prefix(b"close ")
        && let Some(c) = close(text, book)
    {
        return closed(rt, line, c);
    }
    if let Some(text) = line.strip_prefix(b"place ")
        && let Some(after) = placed(text, book)
    {
        return Ok(after);
    }
    lost(rt, line, book)
}

// The book after a line that says something.
fn turn(rt: &impl Print, line: &[u8], book: Book) -> io::Result<Book> {
    match line {
        [b'=', b' ', text @ ..] => {
            rt.write_all(text)?;
            println!(rt)?;
            Ok(book)
        }
        b"new" => Ok(senders::empty()),
        b"book" => {
            listing(rt, &book)?;
            Ok(book)
        }
        _ => called(rt, line, book),
    }
}

// Whether a line says nothing: it is empty or begins with #.
fn comment(line: &[u8]) -> bool {
    matches!(line, [] | [b'#', ..])
}

// Runs every line of `text`, from the empty book on.
fn all(rt: &impl Print, text: &[u8]) -> io::Result<()> {
    let mut book = senders::empty();
    for line in text.split(|b| *b == b'\n') {
        if !comment(line) {
            book = turn(rt, line, book)?;
        }
    }
    Ok(())
}

// Runs the commands of the file cases.txt.
fn main(rt: HostRuntime) -> io::Result<()> {
    let text = fs::read(&rt, "cases.txt")?;
    all(&rt, text.as_slice())
}
