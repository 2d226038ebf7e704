// Relative and absolute quantities, each of a type of its own, with the manual's sums and differences of them, and no
// other.
#![tactic(auto)]

pub mod absolute;
pub mod angles;
pub mod durations;
pub mod lengths;
pub mod quantity;
pub mod relative;
pub mod shown;
pub mod temperatures;
