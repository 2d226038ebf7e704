// The deck ledger. What it is stands in specs/, what is promised of it is proved in proofs/; here are its types and its
// two limits.
#![tactic(auto)]

// The decks of a ledger, which are numbered from 0.
pub const DECKS: usize = 16;

// The most heads that a deck holds.
pub const DECK_HEADS: u16 = 65535;

// The ledger, how many heads are on each deck: a small value that each call takes and hands back.
#[derive(Clone, Copy)]
pub struct Ledger {
    pub heads: [u16; DECKS],
}

// What a muster message does: a head joins a deck; joins a deck and leaves another; leaves a deck.
#[derive(Clone, Copy)]
pub enum Deed {
    Joins(usize),
    Moves(usize, usize),
    Leaves(usize),
}
