// The statistical tests of PS-16 for compliance use, and where they are waived, in exact whole numbers.
#![tactic(auto)]

mod biases;
mod correlations;
mod variances;
mod waivers;

pub use biases::is_biased;
pub use correlations::are_correlated;
pub use variances::is_steady;
pub use waivers::is_waived;
