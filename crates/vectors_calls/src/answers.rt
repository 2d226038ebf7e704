// What a call of the writer answers, as text: a line with its word and the bytes written so far, or with the refusal.
// The first byte of the output that the call may not change and did gets a line too, and so does a refused call that
// hands back another state than it has to.
use programs_pieces::{number, put};
use reading::Found;
use sim0mq::Refusal;
use vectors_copies::fault;
use vectors_lines::part;
use writing::{Writer, Wrote};

// A call of the writer: its word, the state that it has to hand back where it is refused, and what it answered.
#[derive(Clone, Copy)]
pub(crate) struct Called {
    pub(crate) word: &'static [u8],
    pub(crate) left: Writer,
    pub(crate) wrote: Wrote,
}

// The state that a refused opening hands back: closed, with every number 0.
pub(crate) const NOTHING: Writer = Writer {
    written: 0,
    declared: 0,
    added: 0,
    closed: true,
};

// The bytes of `output` from `from` up to `to` in `kept`, where both have them.
fn keep(output: &[u8], kept: &mut [u8], from: usize, to: usize) {
    let end = to.min(kept.len()).min(output.len());
    if from < end {
        kept[from..end].copy_from_slice(&output[from..end]);
    }
}

// The place after the lines of a call, put from `from` on. Granted, it may write from `left.written` on. The output
// held `kept` before it, which then holds what was written too.
pub(crate) fn answer(
    call: Called,
    kept: &mut [u8],
    output: &[u8],
    out: &mut [u8],
    from: usize,
) -> usize {
    let left = call.left;
    match call.wrote.said {
        Ok(n) => {
            let at = granted(call.word, n, out, from);
            let end = untouched(kept, output, left.written, n, out, at);
            keep(output, kept, left.written, n);
            end
        }
        Err(refusal) => {
            let at = listed(Err(refusal), out, from);
            let end = untouched(kept, output, 0, 0, out, at);
            if call.wrote.writer == left {
                return end;
            }
            put(b"state moved\n", out, end)
        }
    }
}

// The place after the line of a granted call: its word and the bytes written so far.
fn granted(word: &[u8], n: usize, out: &mut [u8], from: usize) -> usize {
    let mut at = put(word, out, from);
    at = number(n as u64, out, at);
    put(b"\n", out, at)
}

// The place after the first line of what reading answered, put from `from` on.
fn listed(said: Result<Found, Refusal>, out: &mut [u8], from: usize) -> usize {
    let mut line = [0u8; 128];
    let n = programs_listing::first_line(said, &mut line);
    put(part(&line, 0, n), out, from)
}

// The place after the line of the first byte of the output that was changed and does not stand from `first` up to
// `end`; no line where there is none.
fn untouched(
    kept: &[u8],
    output: &[u8],
    first: usize,
    end: usize,
    out: &mut [u8],
    from: usize,
) -> usize {
    let mut place = changed(kept, output, 0, first);
    if first <= place {
        place = changed(kept, output, end, output.len());
    }
    fault(b"touched at ", place, output.len(), out, from)
}

// The place of the first byte of the output, from `from` up to `to`, that is not as in `kept`; `to` where there is
// none.
fn changed(kept: &[u8], output: &[u8], from: usize, to: usize) -> usize {
    for i in from..to {
        if output.get(i).is_none() || output.get(i) != kept.get(i) {
            return i;
        }
    }
    to
}

// The place after reading's first line of the message that a granted closing left in the output; no line where it was
// refused.
pub(crate) fn read_back(wrote: Wrote, output: &[u8], out: &mut [u8], from: usize) -> usize {
    match wrote.said {
        Ok(n) => listed(reading::judge(part(output, 0, n)).said, out, from),
        Err(_) => from,
    }
}

// The place after the line of the first byte of the output that is not as in `bytes`, whose length counts as one where
// the output is shorter; no line where the output begins with them.
pub(crate) fn begins(bytes: &[u8], output: &[u8], out: &mut [u8], from: usize) -> usize {
    let i = bytes
        .iter()
        .enumerate()
        .position(|(i, b)| output.get(i) != Some(b))
        .unwrap_or(bytes.len());
    fault(b"other at ", i, bytes.len(), out, from)
}
