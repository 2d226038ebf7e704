// Runs the commands of cases.txt, one a line, over one recorder and one buffer, and writes what each answers. The head
// of that file says what the commands are; what must be written stands in `stdout`.
#![tactic(auto)]

use recordings::{Placed, open};
use recordings_blanking::blank_recording;
use recordings_format::MOST;
use recordings_fronts::Stop;
use recordings_reaching::{Reaching, ask_tail};
use recordings_salvaging::{Report, salvage};
use recordings_writing::{Recorded, Recorder};
use sim0mq::{LIMIT, Refusal};
use std::{fs, io};
use vectors_lines::{find, last, part, spaced};

// How many bytes the buffer has: 4,096 messages of 35 bytes, their index, the trailer, and one message more.
const BUFFER: usize = 176173;

// How many zero bytes can be added as a message: one more than the longest has.
const LONG: usize = LIMIT + 1;

// How often a message can be added by one line: once more than a recording has messages.
const TIMES: usize = MOST + 1;

// How many bytes of an output are written at most.
const SHOWN: usize = 300;

// How many numbers a table has at most.
const SLOTS: usize = 8;

// The message of the manual's section 2.3.6, which has 77 bytes.
const SAMPLE: &[u8] =
    b"\x09\0\0\0\x05SIM01\x09\0\0\0\x09IDVV.14.2\x09\0\0\0\x04MC.1\x09\0\0\0\x05MM1.4\x09\0\0\0\x06DSOL.3\x03\0\0\0\0\0\0\0\x7c\0\x02\x01\0\x01\x05\x3f\xc9\x99\x99\x99\x99\x99\x9a";

// A message of 35 bytes, the fewest that one has: short ids, and no field.
const SHORT: &[u8] =
    b"\x09\0\0\0\x05SIM01\x01\0\x01\x01\0\x02\x01\0\x03\x01\0\x04\x03\0\0\0\0\0\0\0\x09\0\x01\0\0";

// Bytes that are no message: the status, at 32, is 4.
const BAD: &[u8] =
    b"\x09\0\0\0\x05SIM01\x01\0\x01\x01\0\x02\x01\0\x03\x01\0\x04\x03\0\0\0\0\0\0\0\x09\0\x04\0\0";

// The recorder's state, and how many bytes of the buffer it is lent.
#[derive(Clone, Copy)]
struct Run {
    recorder: Recorder,
    room: usize,
}

impl Run {
    // With a new recorder.
    fn new(room: usize) -> Run {
        Run {
            recorder: Recorder::new(),
            room,
        }
    }

    // What adding a message answers, in the bytes that the recorder is lent.
    fn add(self, message: &[u8], out: &mut [u8]) -> Recorded {
        let room = self.room.min(out.len());
        self.recorder.add(message, &mut out[..room])
    }

    // What closing answers, in the bytes that the recorder is lent.
    fn close(self, out: &mut [u8]) -> Recorded {
        let room = self.room.min(out.len());
        self.recorder.close(&mut out[..room])
    }

    // The run after a call of the recorder: the state is the one that the call hands back.
    fn after(self, a: Recorded) -> Run {
        Run {
            recorder: a.recorder,
            ..self
        }
    }
}

// The numbers of a line: two, the largest where one is too large, and a third where it has one.
#[derive(Clone, Copy)]
struct Values {
    a: usize,
    b: usize,
    c: Option<usize>,
}

// Writes a line that is not understood.
fn lost(rt: &impl Print, line: &[u8]) -> io::Result<()> {
    print!(rt; "unknown: ")?;
    rt.write_all(line)?;
    println!(rt)
}

// Writes a line and a colon, before what it answers.
fn head(rt: &impl Print, line: &[u8]) -> io::Result<()> {
    rt.write_all(line)?;
    print!(rt; ":")
}

// Writes what opening or a recorder answers: a number, or the refusal.
fn judged(rt: &impl Print, said: Result<usize, Refusal>) -> io::Result<()> {
    match said {
        Ok(n) => print!(rt; " {n}"),
        Err(refusal) => print!(rt; " {refusal}"),
    }
}

// Writes where a message stands.
fn placed(rt: &impl Print, m: Placed) -> io::Result<()> {
    print!(rt; " {} {}", m.start, m.length)
}

// The numbers of a line, each after a space, of which the first stands at `at`; none where they are not understood.
fn numbers(line: &[u8], at: usize) -> Option<Values> {
    let a = spaced(line, at);
    let b = spaced(line, a.at);
    let c = spaced(line, b.at);
    if c.at != line.len() {
        return None;
    }
    Some(Values {
        a: a.or_largest(),
        b: b.or_largest(),
        c: c.value,
    })
}

// Writes a line of what the recorder answered, and of its state then.
fn told(rt: &impl Print, line: &[u8], a: Recorded) -> io::Result<()> {
    let r = a.recorder;
    head(rt, line)?;
    judged(rt, a.said)?;
    let shut = if r.closed { "closed" } else { "open" };
    println!(rt; ", state {} {} {shut}", r.written, r.messages)
}

// `zeros N`: what adding N zero bytes as a message answers.
fn zeros(n: usize, run: Run, out: &mut [u8]) -> Option<Recorded> {
    let message = [0u8; LONG];
    Some(run.add(message.get(..n)?, out))
}

// `many N`: what adding the short message answers the last of N times.
fn many(n: usize, run: Run, out: &mut [u8]) -> Option<Recorded> {
    if n == 0 || TIMES < n {
        return None;
    }
    let mut now = run;
    for _ in 1..n {
        now = now.after(now.add(SHORT, out));
    }
    Some(now.add(SHORT, out))
}

// `three`: the first 223 bytes become the recording of messages of 77, 35 and 77 bytes, by a recorder that is lent
// just these.
fn three(out: &mut [u8]) -> Run {
    let mut run = Run::new(223);
    for message in [SAMPLE, SHORT, SAMPLE] {
        run = run.after(run.add(message, out));
    }
    run.after(run.close(out))
}

// `state W M C`: the recorder's state has W bytes written and M messages, and is closed where C is 1; C is 0 or 1.
fn state(line: &[u8], run: Run) -> Option<Run> {
    let n = numbers(line, 5)?;
    let closed = match n.c? {
        0 => false,
        1 => true,
        _ => return None,
    };
    Some(Run {
        recorder: Recorder {
            written: n.a,
            messages: n.b,
            closed,
        },
        ..run
    })
}

// `room N`: the recorder is lent the first N bytes of the buffer.
fn room(line: &[u8], run: Run) -> Option<Run> {
    let room = last(line, 5)?;
    if BUFFER < room {
        return None;
    }
    Some(Run { room, ..run })
}

// `set I B`: byte I of the buffer becomes B.
fn set(line: &[u8], run: Run, out: &mut [u8]) -> Option<Run> {
    let n = numbers(line, 3)?;
    let byte = out.get_mut(n.a)?;
    *byte = u8::try_from(n.b).ok()?;
    Some(run)
}

// `open A B`, of the bytes s: writes how they open.
fn opens(rt: &impl Print, line: &[u8], s: &[u8]) -> io::Result<()> {
    head(rt, line)?;
    judged(rt, open(s))?;
    println!(rt)
}

// `ask A B K`, of the bytes s: writes where message k of them stands.
fn asks(rt: &impl Print, line: &[u8], s: &[u8], k: usize) -> io::Result<()> {
    head(rt, line)?;
    match recordings::ask(s, k) {
        Ok(m) => placed(rt, m)?,
        Err(refusal) => print!(rt; " {refusal}")?,
    }
    println!(rt)
}

// `table A B N`, of the bytes s: writes how they open with a table of n numbers, and the numbers of which they are the
// first, each 7 before.
fn table(rt: &impl Print, line: &[u8], s: &[u8], n: usize) -> io::Result<()> {
    let mut table = [7u32; SLOTS];
    let Some(lent) = table.get_mut(..n) else {
        return lost(rt, line);
    };
    let said = recordings::open_into(s, lent);
    head(rt, line)?;
    judged(rt, said)?;
    print!(rt; ", table")?;
    for n in table {
        print!(rt; " {n}")?;
    }
    println!(rt)
}

// Writes bytes as numbers.
fn listed(rt: &impl Print, s: &[u8]) -> io::Result<()> {
    for b in s {
        print!(rt; " {b}")?;
    }
    Ok(())
}

// `bytes A B`, of the bytes s: writes them as numbers.
fn bytes(rt: &impl Print, line: &[u8], s: &[u8]) -> io::Result<()> {
    head(rt, line)?;
    listed(rt, s)?;
    println!(rt)
}

// Writes what salvage reports: the length of the new recording, how many messages were kept, how many bytes dropped,
// and why it stopped.
fn reported(rt: &impl Print, r: Report) -> io::Result<()> {
    print!(rt; " {}, kept {} dropped {}", r.length, r.kept, r.dropped)?;
    match r.stop {
        Stop::AtEnd => print!(rt; " stopped at the end"),
        Stop::AtMost => print!(rt; " stopped at {MOST} messages"),
        Stop::AtFault(refusal) => print!(rt; " {refusal}"),
    }
}

// Writes how a new recording opens, and whether it is the bytes s themselves.
fn opened(rt: &impl Print, recording: &[u8], s: &[u8]) -> io::Result<()> {
    print!(rt; ", opens")?;
    judged(rt, open(recording))?;
    if recording == s {
        print!(rt; ", the same bytes")?;
    }
    Ok(())
}

// Writes what salvaging the bytes s into `out` answers, and of the new recording how it opens.
fn saved(rt: &impl Print, s: &[u8], out: &mut [u8]) -> io::Result<()> {
    match salvage(s, out) {
        Ok(r) => {
            reported(rt, r)?;
            opened(rt, part(out, 0, r.length), s)?;
        }
        Err(refusal) => print!(rt; " {refusal}")?,
    }
    println!(rt)
}

// `salvage A B N`, of the bytes s: writes what salvaging them in an output of n bytes answers.
fn salvages(rt: &impl Print, line: &[u8], s: &[u8], n: usize) -> io::Result<()> {
    let mut out = [0u8; BUFFER];
    let Some(lent) = out.get_mut(..n) else {
        return lost(rt, line);
    };
    head(rt, line)?;
    saved(rt, s, lent)
}

// Writes what salvaging the first n of the bytes s answers.
fn cut(rt: &impl Print, s: &[u8], n: usize) -> io::Result<()> {
    let mut out = [0u8; BUFFER];
    print!(rt; "cut at {n}:")?;
    saved(rt, part(s, 0, n), &mut out)
}

// `cuts A B`, of the bytes s: writes what salvaging them answers where they are cut at each place, their end included.
fn cuts(rt: &impl Print, s: &[u8]) -> io::Result<()> {
    for n in 0..=s.len() {
        cut(rt, s, n)?;
    }
    Ok(())
}

// Writes what blanking the bytes s into `out` answers, and of the output its bytes, where they are few, or how the copy
// in it opens.
fn copied(rt: &impl Print, s: &[u8], out: &mut [u8]) -> io::Result<()> {
    judged(rt, blank_recording(s, out))?;
    if SHOWN < out.len() {
        print!(rt; ", opens")?;
        judged(rt, open(part(out, 0, s.len())))?;
    } else {
        print!(rt; ", output")?;
        listed(rt, out)?;
    }
    println!(rt)
}

// `blank A B N`, of the bytes s: writes what blanking them in an output of n bytes, each 170, answers, and the output.
fn blanks(rt: &impl Print, line: &[u8], s: &[u8], n: usize) -> io::Result<()> {
    let mut out = [170u8; BUFFER];
    let Some(lent) = out.get_mut(..n) else {
        return lost(rt, line);
    };
    head(rt, line)?;
    copied(rt, s, lent)
}

// Writes where message k of a file of n bytes stands that ends in these, or how many of its last bytes are wanted.
fn reached(rt: &impl Print, n: usize, tail: &[u8], k: usize) -> io::Result<()> {
    match ask_tail(n, tail, k) {
        Ok(Reaching::At(m)) => placed(rt, m)?,
        Ok(Reaching::Wanted(w)) => print!(rt; " wanted {w}")?,
        Err(refusal) => print!(rt; " {refusal}")?,
    }
    println!(rt)
}

// `tail A B K` and `far A B N`: writes what asking for message k of a file of n bytes answers that ends in these.
fn tail(rt: &impl Print, line: &[u8], s: &[u8], n: usize, k: usize) -> io::Result<()> {
    head(rt, line)?;
    reached(rt, n, s, k)
}

// `tails A B K`, of the bytes s: writes what asking for message k answers by each of their ends, from all of them to
// none.
fn tails(rt: &impl Print, s: &[u8], k: usize) -> io::Result<()> {
    for at in 0..=s.len() {
        print!(rt; "from {at}:")?;
        reached(rt, s.len(), part(s, at, s.len()), k)?;
    }
    Ok(())
}

// Writes what a line says of the bytes of the buffer; or that it is not understood.
fn reads(rt: &impl Print, line: &[u8], out: &[u8]) -> io::Result<()> {
    let space = find(line, 0, b' ');
    let Some(n) = numbers(line, space) else {
        return lost(rt, line);
    };
    let Some(s) = out.get(n.a..n.b) else {
        return lost(rt, line);
    };
    let word = part(line, 0, space);
    match word {
        b"open" => return opens(rt, line, s),
        b"bytes" => return bytes(rt, line, s),
        b"cuts" => return cuts(rt, s),
        _ => {}
    }
    let Some(k) = n.c else {
        return lost(rt, line);
    };
    match word {
        b"salvage" => salvages(rt, line, s, k),
        b"ask" => asks(rt, line, s, k),
        b"blank" => blanks(rt, line, s, k),
        b"tail" => tail(rt, line, s, n.b, k),
        b"far" => tail(rt, line, s, k, 0),
        b"tails" => tails(rt, s, k),
        b"table" => table(rt, line, s, k),
        _ => lost(rt, line),
    }
}

// What a line's call of the recorder answers; none where the line is no such call.
fn called(line: &[u8], run: Run, out: &mut [u8]) -> Option<Recorded> {
    if let Some(text) = line.strip_prefix(b"zeros ") {
        return zeros(last(text, 0)?, run, out);
    }
    if let Some(text) = line.strip_prefix(b"many ") {
        return many(last(text, 0)?, run, out);
    }
    match line {
        b"sample" => Some(run.add(SAMPLE, out)),
        b"short" => Some(run.add(SHORT, out)),
        b"bad" => Some(run.add(BAD, out)),
        b"close" => Some(run.close(out)),
        _ => None,
    }
}

// The run after a line that says what the state and the buffer are; none where the line does not.
fn made(line: &[u8], run: Run, out: &mut [u8]) -> Option<Run> {
    if line.starts_with(b"state ") {
        return state(line, run);
    }
    if line.starts_with(b"room ") {
        return room(line, run);
    }
    if line.starts_with(b"set ") {
        return set(line, run, out);
    }
    match line {
        b"new" => Some(Run::new(run.room)),
        b"three" => Some(three(out)),
        _ => None,
    }
}

// The run after a line: one that says nothing, or writes a text, or says what the state and the buffer are, or calls
// the recorder, or another.
fn turn(rt: &impl Print, line: &[u8], run: Run, out: &mut [u8]) -> io::Result<Run> {
    if line.is_empty() || line.starts_with(b"#") {
        return Ok(run);
    }
    if let Some(text) = line.strip_prefix(b"= ") {
        rt.write_all(text)?;
        println!(rt)?;
        return Ok(run);
    }
    if let Some(after) = made(line, run, out) {
        return Ok(after);
    }
    if let Some(a) = called(line, run, out) {
        told(rt, line, a)?;
        return Ok(run.after(a));
    }
    reads(rt, line, out)?;
    Ok(run)
}

// Runs the commands of the file cases.txt, in one buffer, which is zero at first and lent whole.
fn main(rt: HostRuntime) -> io::Result<()> {
    let text = fs::read(&rt, "cases.txt")?;
    let mut out = [0u8; BUFFER];
    let mut run = Run::new(BUFFER);
    for line in text.split(|b| *b == b'\n') {
        run = turn(&rt, line, run, &mut out)?;
    }
    Ok(())
}
