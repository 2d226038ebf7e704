// What asking answers, and whether writing gives a message back, as text, for a program that compares it. The text is
// put into a lent buffer by `programs_pieces::put`, so that a text that does not fit leaves the place past the buffer.
#![tactic(auto)]

pub mod rewrites;
pub mod values;
