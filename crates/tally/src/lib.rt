// Exact sums over the pairs of a level, and over those of three levels together.
#![tactic(auto)]

mod sums;
mod totals;

pub use sums::Sums;
pub use totals::{Joined, Tally, Totals};
