// The library for C and Rust: its functions are the calls that bindings/c/sim0mq.h declares. Each is that of a crate
// boundary_ under the same name, with the same contract. A slice crosses as a pointer and a length.
#![tactic(auto)]

pub mod book;
pub mod command;
pub mod decks;
pub mod messages;
pub mod quantities;
pub mod recorded;
pub mod recorder;
pub mod writer;
