// Whole lists of calls.
ghost use Rattle.std.specs.Prelude.{◌≡◌, false, None, fold};
ghost use Rattle.campaign.specs.Account.{account, is_current, step};
ghost use Rattle.campaign.specs.Replaying.{HandedBack, end_call, held_id};
ghost use Rattle.campaign.specs.View.{view};
ghost use Rattle.campaign.specs.declared.replaying.Call.TheVariants.{Begin};

use crate::endings::{CloseRefusal, VoidRefusal};
use crate::{BegunRun, Log, RunId};
use std::mem;
use terms::{Head, Level, Pair};

// A call on a log, by its arguments. A run is named by what identifies it, so that a list of calls may name a run of
// another campaign, one that has ended, or one that was never begun.
#[derive(Clone, Copy, PartialEq, Eq, Debug)]
pub enum Call {
    Begin(Level),
    Close { run: RunId, pair: Pair },
    Void(RunId),
    Judge,
}

// A log after a list of calls, and the run that is then begun and not ended.
pub struct Replayed {
    pub log: Log,
    pub run: Option<BegunRun>,
}

// A log between two calls, and the run that is begun and not ended, which its type keeps.
struct Following {
    log: Log,
    run: Option<BegunRun>,
    ghost held: { held_id run ≡ (view log).current },
}

// Makes an empty campaign and gives it the calls one after another, refused ones included. Head and serial come apart, since the
// log is the struct that holds them.
pub fn replay(head: Head, serial: u16, calls: &[Call]) -> Replayed
    ensures account { view result.log ≡ account head serial calls.now }
    ensures run { held_id result.run ≡ (view result.log).current }
{
    let mut following = Following {
        log: Log::new(head, serial),
        run: None,
    };
    for call in calls {
        following.follow(*call);
    }
    let Following { log, run } = following;
    Replayed { log, run }
}

// The run that is begun and not ended is held beside the log from call to call: a call that names it is given that run
// itself. Where a call names another, a run is made to that description, for this call alone, and it is proved to be
// refused. It is made and taken apart in `refuse`, and nowhere else. The log is lent, and not moved in and out by each call.
impl Following {
    fn follow(&mut self, call: Call)
        ensures { view self.new.log ≡ step (view self.old.log) call }
    {
        match call {
            Call::Begin(level) => self.begin(level),
            Call::Close { run, pair } => self.end(run, Some(pair)),
            Call::Void(run) => self.end(run, None),
            Call::Judge => {}
        }
    }

    fn begin(&mut self, level: Level)
        ensures { view self.new.log ≡ step (view self.old.log) (Begin level) }
    {
        if let Ok(run) = self.log.begin(level) {
            put(&mut self.run, Some(run));
        }
    }

    // Ends the run that is named: closes it with the pair, or voids it where there is none.
    fn end(&mut self, named: RunId, pair: Option<Pair>)
        ensures { view self.new.log ≡ step (view self.old.log) (end_call named pair) }
    {
        let left = match self.run.take() {
            Some(run) if run.id == named => self.log.end(run, pair),
            held => {
                self.log.refuse(named, pair);
                held
            }
        };
        put(&mut self.run, left);
    }
}

// Puts a run, if any, where none is held. A begun run cannot be let go, so this is a match and no assignment.
fn put(place: &mut Option<BegunRun>, run: Option<BegunRun>)
    requires { place.old ≡ None }
    ensures { place.new ≡ run }
{
    match mem::replace(place, run) {
        None => {}
        Some(_) => unreachable(),
    }
}

impl Log {
    // Gives a run to close, or to void where there is no pair, and returns it where it is refused.
    fn end(&mut self, run: BegunRun, pair: Option<Pair>) -> Option<BegunRun>
        ensures account { view self.new ≡ step (view self.old) (end_call run.id pair) }
        ensures back { HandedBack self.old run self.new result }
    {
        match pair {
            Some(pair) => self
                .close(run, pair)
                .err()
                .map(|CloseRefusal { run, fault: _ }| run),
            None => self.void(run).err().map(|VoidRefusal { run }| run),
        }
    }

    fn refuse(&mut self, named: RunId, pair: Option<Pair>)
        requires { is_current (view self.old) named ≡ false }
        ensures account { view self.new ≡ step (view self.old) (end_call named pair) }
        ensures same { self.new ≡ self.old }
    {
        let BegunRun { id: _ } = self.end(BegunRun { id: named }, pair).unwrap();
    }
}
