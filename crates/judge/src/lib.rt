// The judge: which runs to strike so that a campaign meets a standard, or why none can be.
#![tactic(auto)]

mod causes;
mod judging;
mod listing;
mod searching;
mod shortlists;
mod verdicts;

pub use judging::judge;
pub use verdicts::{Cause, Verdict};
