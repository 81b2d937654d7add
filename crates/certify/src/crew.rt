// A crew's campaign: its log, and what became of its calls.
ghost use Rattle.std.specs.Prelude.{◌≡◌, Some, OnOk};
ghost use Rattle.campaign.specs.Account.{ended, start};
ghost use Rattle.campaign.specs.View.{view};
ghost use Rattle.certify.specs.Measured.{finished, given_up, measured};

use campaign::{BeginRefusal, BegunRun, CloseRefusal, Log};
use terms::{Head, Level, Pair};

#[derive(Drop)]
pub struct Crew {
    pub log: Log,
    pub voided: u32,
    pub refused: u32,
}

impl Crew {
    // Head and serial come apart, since the log is the struct that holds them.
    pub fn new(head: Head, serial: u16) -> Crew
        ensures { view result.log ≡ start head serial }
    {
        Crew {
            log: Log::new(head, serial),
            voided: 0,
            refused: 0,
        }
    }

    // Takes a run at a level from beginning to end. Level and pair part at once: begin wants the one, and close the other.
    pub fn measure(&mut self, level: Level, pair: Pair) -> Result<(), BeginRefusal>
        ensures { view self.new.log ≡ measured (view self.old.log) level pair }
    {
        let run = self.log.begin(level)?;
        self.close(run, pair);
        Ok(())
    }

    // Takes two runs at a level, one after the other.
    pub fn measure_two(
        &mut self,
        level: Level,
        first: Pair,
        second: Pair,
    ) -> Result<(), BeginRefusal>
        ensures { OnOk result (view self.new.log ≡ measured (measured (view self.old.log) level first) level second) }
    {
        let run = self.log.begin(level)?;
        self.close(run, first);
        let another = self.log.begin(level)?;
        self.close(another, second);
        Ok(())
    }

    // Begins a run and gives it up.
    pub fn give_up(&mut self, level: Level) -> Result<(), BeginRefusal>
        ensures { view self.new.log ≡ given_up (view self.old.log) level }
    {
        let run = self.log.begin(level)?;
        self.void(run);
        Ok(())
    }

    // Closes the run now begun, or voids it where its readings are refused. A type that kept that it is the one begun would have to
    // hold the log for as long.
    fn close(&mut self, run: BegunRun, pair: Pair)
        requires { (view self.old.log).current ≡ Some run.id }
        ensures { view self.new.log ≡ finished (view self.old.log) run.id pair }
    {
        if let Err(CloseRefusal { run, fault: _ }) = self.log.close(run, pair) {
            self.refused = self.refused.saturating_add(1);
            self.void(run);
        }
    }

    // Voids the run now begun, of which the same is true.
    fn void(&mut self, run: BegunRun)
        requires { (view self.old.log).current ≡ Some run.id }
        ensures { view self.new.log ≡ ended (view self.old.log) }
    {
        self.log.void(run).unwrap();
        self.voided = self.voided.saturating_add(1);
    }
}
