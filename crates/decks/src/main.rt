// How many people sleep on each deck: standard input is a recording, standard output a line for each deck and one for
// the messages, or the refusal of opening it.
#![tactic(auto)]

use ledger_recordings::{Reckoned, reckon};
use std::io;

// How many bytes a recording has at most: three and a half mebibytes.
const RECORDING: usize = 3670016;

// Writes what a recording comes to: a line for each deck, and one for the messages; or the refusal.
fn told(rt: &impl Print, r: Reckoned) -> io::Result<()> {
    match r.said {
        Err(refusal) => println!(rt; "{refusal}"),
        Ok(applied) => {
            for (d, heads) in r.ledger.heads.iter().enumerate() {
                println!(rt; "deck {d} heads {heads}")?;
            }
            println!(rt; "applied {applied} refused {}", r.refused)
        }
    }
}

// Reckons standard input; a line to standard error where it cannot be read, or has more bytes than there is room for.
fn main(rt: HostRuntime) -> io::Result<()> {
    let mut bytes = vec![in rt.alloc(); 0; RECORDING + 1]?;
    match programs_input::fill(&mut rt.stdin(), &mut bytes) {
        Ok(n) => {
            if RECORDING < n {
                return rt.eprintln("decks: the recording has more than 3670016 bytes");
            }
            told(&rt, reckon(&bytes[..n]))
        }
        Err(_) => rt.eprintln("decks: cannot read standard input"),
    }
}
