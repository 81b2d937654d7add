// The verdict on a campaign: its log judged by any standard, or by PS-16.
#![tactic(auto)]

mod judging;
mod replaying;

pub use judging::{judge_by, judge_by_ps16};
pub use replaying::{Judged, replay_and_judge};
