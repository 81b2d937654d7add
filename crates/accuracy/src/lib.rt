// Whether the predictions of a level are accurate: relative accuracy under PS-16, in exact whole numbers.
#![tactic(auto)]

mod coefficient;
mod limits;
mod rules;

pub use coefficient::confidence;
pub use rules::{diluent, pollutant};
