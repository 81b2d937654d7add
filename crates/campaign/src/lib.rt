// A campaign's log, kept by begin, close and void, and the token of a run that is begun.
#![tactic(auto)]

ghost use Rattle.std.specs.Prelude.{◌<◌, ◌≤◌};
ghost use Rattle.campaign.specs.Keeping.{before_current};
ghost use Rattle.runs.specs.Closed.{pairs_of};
ghost use Rattle.terms.specs.Readings.{highest};
ghost use Rattle.terms.specs.Limits.{top_reading};

use runs::ClosedRuns;
use terms::{Head, Level, Levels};

mod calls;
mod current;
mod endings;
mod reading;
mod refusals;
mod replaying;

pub use endings::{CloseFault, CloseRefusal, VoidRefusal};
pub use refusals::BeginRefusal;
pub use replaying::{Call, Replayed, replay};

// The campaign's serial, the run's level, and its number in the campaign, from 1.
#[derive(Clone, Copy, PartialEq, Eq, Debug)]
pub struct RunId {
    pub serial: u16,
    pub level: Level,
    pub number: u8,
}

// A run that is begun. It can be neither copied nor let go: close or void takes it, or hands it back.
pub struct BegunRun {
    id: RunId,
}

// A run's number is how many were begun with it, so of the run that is begun and not ended only the level is kept. A log has no
// model, by which clauses would compare accounts: a refusal leaves it as it was, to the last field.
#[derive(Drop)]
pub struct Log {
    head: Head,
    serial: u16,
    closed: Levels<ClosedRuns>,
    begun: u8,
    current: Option<Level>,
    ghost low_within: { highest (pairs_of closed.low) ≤ top_reading head.kind },
    ghost mid_within: { highest (pairs_of closed.mid) ≤ top_reading head.kind },
    ghost high_within: { highest (pairs_of closed.high) ≤ top_reading head.kind },
    ghost few: { begun ≤ 99 },
    ghost room: { before_current current closed < 12 },
}
