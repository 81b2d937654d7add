// What a log tells.
ghost use Rattle.std.specs.Prelude.{◌≡◌, ◌≤◌, length};
ghost use Rattle.std.specs.Option.{option_map};
ghost use Rattle.campaign.specs.View.{view};
ghost use Rattle.runs.specs.Closed.{lists_of};
ghost use Rattle.terms.specs.Readings.{highest};
ghost use Rattle.terms.specs.Levels.{at_level};
ghost use Rattle.terms.specs.Limits.{top_reading};

use crate::{BegunRun, Log, RunId};
use runs::ClosedRuns;
use terms::{Head, Level, Levels, Pair};

impl BegunRun {
    pub fn id(&self) -> RunId
        ensures { result ≡ self.now.id }
    {
        self.id
    }
}

impl Log {
    pub fn head(&self) -> Head
        ensures { result ≡ (view self.now).head }
    {
        self.head
    }

    pub fn serial(&self) -> u16
        ensures { result ≡ (view self.now).serial }
    {
        self.serial
    }

    // How many runs were begun.
    pub fn begun(&self) -> u8
        ensures value { result ≡ (view self.now).begun }
        ensures few { result ≤ 99 }
    {
        self.begun
    }

    // The level of the run that is begun and not ended.
    pub fn open_level(&self) -> Option<Level>
        ensures { result ≡ option_map (λ run. run.level) (view self.now).current }
    {
        self.current
    }

    // The closed pairs of a level, in closing order.
    pub fn closed(&self, level: Level) -> &[Pair]
        ensures pairs { result.now ≡ at_level (view self.now).closed level }
        ensures few { length result.now ≤ 12 }
        ensures within { highest result.now ≤ top_reading (view self.now).head.kind }
    {
        self.closed.at(level).as_slice()
    }

    // The closed runs of every level.
    pub fn runs(&self) -> Levels<ClosedRuns>
        ensures { lists_of result ≡ (view self.now).closed }
    {
        let Log { closed, .. } = self;
        *closed
    }
}
