// What a campaign is judged by: the trait of a standard, PS-16's own standards, and layers over any standard.
#![tactic(auto)]

mod layers;
mod piles;
mod plain;
mod standards;

pub use layers::{Absolute, MarginRefusal, Statistics, Waiver};
pub use piles::Ps16;
pub use plain::{Diluent, Pollutant};
pub use standards::{Limits, Standard};
