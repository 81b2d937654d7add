// The run that is begun and not ended.
ghost use Rattle.std.specs.Prelude.{◌≡◌, ◌≤◌, Some};
ghost use Rattle.campaign.specs.Account.{closed_with, is_current};
ghost use Rattle.campaign.specs.View.{view};
ghost use Rattle.terms.specs.Readings.{higher};
ghost use Rattle.terms.specs.Limits.{top_reading};

use crate::{BegunRun, Log, RunId};
use terms::{Level, Pair};

impl Log {
    // Whether the run is the one that is begun and not ended.
    pub(crate) fn is_current(&self, run: &BegunRun) -> bool
        ensures { result ≡ is_current (view self.now) run.now.id }
    {
        self.current_id() == Some(run.id)
    }

    // What identifies the run that is begun and not ended.
    fn current_id(&self) -> Option<RunId>
        ensures { result ≡ (view self.now).current }
    {
        self.current.map(|level| RunId {
            serial: self.serial,
            level,
            number: self.begun,
        })
    }

    // Puts a pair last at the level of the run that is begun, which ends.
    pub(crate) fn put_last(&mut self, level: Level, pair: Pair)
        requires begun { self.old.current ≡ Some level }
        requires within { higher pair ≤ top_reading self.old.head.kind }
        ensures { view self.new ≡ closed_with (view self.old) level pair }
    {
        // A `&mut` to one of the three is beyond today's borrow checker, so each level has its own push.
        let pushed = match level {
            Level::Low => self.closed.low.push(pair),
            Level::Mid => self.closed.mid.push(pair),
            Level::High => self.closed.high.push(pair),
        };
        pushed.unwrap();
        self.current = None;
    }
}
