// The terms of a campaign: what a monitor measures and what it is used for, the levels of load, pairs of readings, and
// the head of a campaign's log.
#![tactic(auto)]

mod heads;
mod kinds;
mod levels;
mod pairs;

pub use heads::{Head, HeadRefusal};
pub use kinds::{Kind, Use};
pub use levels::{Level, Levels};
pub use pairs::{Pair, PairRefusal};
