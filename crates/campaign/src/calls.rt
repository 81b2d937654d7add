// The calls that keep a log. Each says for itself that a refusal leaves the log as it was, which no type can say.
ghost use Rattle.std.specs.Prelude.{◌≡◌, IfOk, Some, OnErr};
ghost use Rattle.campaign.specs.Account.{start, step};
ghost use Rattle.campaign.specs.Answers.{BeginAnswer, CloseAnswer, VoidAnswer};
ghost use Rattle.campaign.specs.View.{view};
ghost use Rattle.campaign.specs.declared.replaying.Call.TheVariants.{Begin, Close, Void};

use crate::endings::{CloseFault, CloseRefusal, VoidRefusal};
use crate::refusals::BeginRefusal;
use crate::{BegunRun, Log, RunId};
use runs::ClosedRuns;
use terms::{Head, Level, Levels, Pair};

impl Log {
    // A campaign with no runs. Its head and serial are given apart, since the log is the struct that holds them.
    pub fn new(head: Head, serial: u16) -> Log
        ensures { view result ≡ start head serial }
    {
        let none = ClosedRuns::new();
        Log {
            head,
            serial,
            closed: Levels {
                low: none,
                mid: none,
                high: none,
            },
            begun: 0,
            current: None,
        }
    }

    // Begins a run at a level and hands it out.
    pub fn begin(&mut self, level: Level) -> Result<BegunRun, BeginRefusal>
        ensures account { view self.new ≡ step (view self.old) (Begin level) }
        ensures answer { BeginAnswer (view self.old) level result }
        ensures current { IfOk result (λ run. (view self.new).current ≡ Some run.id) }
        ensures same { OnErr result (self.new ≡ self.old) }
    {
        if self.current.is_some() {
            return Err(BeginRefusal::RunBegun);
        }
        if self.begun >= 99 {
            return Err(BeginRefusal::NoNumber);
        }
        if self.closed.at(level).len() >= 12 {
            return Err(BeginRefusal::LevelFull);
        }
        self.begun += 1;
        self.current = Some(level);
        Ok(BegunRun {
            id: RunId {
                serial: self.serial,
                level,
                number: self.begun,
            },
        })
    }

    // Ends the begun run and puts its pair last at its level.
    pub fn close(&mut self, run: BegunRun, pair: Pair) -> Result<(), CloseRefusal>
        ensures account { view self.new ≡ step (view self.old) (Close run.id pair) }
        ensures answer { CloseAnswer (view self.old) run pair result }
        ensures same { OnErr result (self.new ≡ self.old) }
    {
        let top = self.head.kind.top();
        if !self.is_current(&run) {
            return Err(CloseRefusal {
                run,
                fault: CloseFault::NotCurrent,
            });
        }
        if pair.reference > top {
            return Err(CloseRefusal {
                run,
                fault: CloseFault::Reference,
            });
        }
        if pair.predicted > top {
            return Err(CloseRefusal {
                run,
                fault: CloseFault::Predicted,
            });
        }
        let BegunRun { id } = run;
        self.put_last(id.level, pair);
        Ok(())
    }

    // Ends the begun run, of which only the used number remains.
    pub fn void(&mut self, run: BegunRun) -> Result<(), VoidRefusal>
        ensures account { view self.new ≡ step (view self.old) (Void run.id) }
        ensures answer { VoidAnswer (view self.old) run result }
        ensures same { OnErr result (self.new ≡ self.old) }
    {
        if !self.is_current(&run) {
            return Err(VoidRefusal { run });
        }
        self.current = None;
        let BegunRun { id: _ } = run;
        Ok(())
    }
}
