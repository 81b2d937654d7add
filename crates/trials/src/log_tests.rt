// Logs at the edges of what they take: every refusal of begin, close and void.
ghost use Rattle.std.specs.Prelude.{◌≡◌, true, is_some, Some, None};
ghost use Rattle.campaign.specs.Replaying.{held_id};
ghost use Rattle.campaign.specs.View.{view};

use crate::test_makings::ppm;
use campaign::{BegunRun, Call, CloseRefusal, Log, Replayed, RunId, replay};
use std::process::Abort;
use std::test::Fail;
use terms::{Head, Kind, Level, Pair, Use};

// Begins a run and closes it, or voids it where close refuses: the number of the refusal, none where the run is taken.
pub(crate) fn measure(log: &mut Log, level: Level, pair: Pair) -> Option<u32> {
    match log.begin(level) {
        Err(refusal) => Some(refusal.number()),
        Ok(run) => match log.close(run, pair) {
            Ok(()) => None,
            Err(CloseRefusal { run, fault }) => {
                void(log, run);
                Some(fault.number())
            }
        },
    }
}

// Voids the run now begun. A type that kept that it is the one begun would have to hold the log for as long.
pub(crate) fn void(log: &mut Log, run: BegunRun)
    requires { (view log.old).current ≡ Some run.id }
{
    log.void(run).unwrap();
}

// Voids the run that is still begun, if any, and tells which it was.
pub(crate) fn end(log: &mut Log, run: Option<BegunRun>) -> Option<RunId>
    requires { held_id run ≡ (view log.old).current }
{
    match run {
        None => None,
        Some(run) => {
            let id = run.id();
            void(log, run);
            Some(id)
        }
    }
}

#[test]
fn twelve_runs_a_level(rt: HostRuntime) -> Result<(), Fail> {
    let mut log = Log::new(ppm(Use::Excess)?, 7);
    for _ in 0..12 {
        assert_eq!(rt; measure(&mut log, Level::Mid, Pair::new(2000, 1900)), None);
    }
    assert_eq!(rt;
        measure(&mut log, Level::Mid, Pair::new(2000, 1900)),
        Some(21)
    );
    assert_eq!(rt; measure(&mut log, Level::High, Pair::new(2000, 1900)), None);
    assert_eq!(rt; log.closed(Level::Mid).len(), 12);
    assert_eq!(rt; log.closed(Level::Low).len(), 0);
    assert_eq!(rt; log.begun(), 13);
    Ok(())
}

#[test]
fn ninety_nine_begun(rt: HostRuntime) -> Result<(), Fail> {
    let mut log = Log::new(ppm(Use::Excess)?, 7);
    for _ in 0..12 {
        assert_eq!(rt; measure(&mut log, Level::Mid, Pair::new(2000, 1900)), None);
    }
    for _ in 12..99 {
        assert_eq!(rt;
            measure(&mut log, Level::Low, Pair::new(50_001, 0)),
            Some(24)
        );
    }
    assert_eq!(rt; measure(&mut log, Level::Low, Pair::new(0, 0)), Some(22));
    assert_eq!(rt; measure(&mut log, Level::Mid, Pair::new(0, 0)), Some(22));
    assert_eq!(rt; log.begun(), 99);
    Ok(())
}

#[test]
fn top_readings(rt: HostRuntime) -> Result<(), Fail> {
    for (kind, emission, top) in [
        (Kind::Ppm, 1, 50_000),
        (Kind::Heat, 1, 50_000),
        (Kind::Diluent, 0, 10_000),
    ] {
        let mut log = Log::new(Head::new(kind, Use::Compliance, emission, 1)?, 0);
        assert_eq!(rt; measure(&mut log, Level::Low, Pair::new(top, top)), None);
        assert_eq!(rt;
            measure(&mut log, Level::Low, Pair::new(top + 1, top)),
            Some(24)
        );
        assert_eq!(rt;
            measure(&mut log, Level::Low, Pair::new(top, top + 1)),
            Some(25)
        );
        assert_eq!(rt;
            measure(&mut log, Level::Low, Pair::new(top + 1, top + 1)),
            Some(24)
        );
        assert_eq!(rt; log.closed(Level::Low).len(), 1);
        assert_eq!(rt; log.begun(), 4);
    }
    Ok(())
}

#[test]
fn one_run_at_a_time(rt: HostRuntime) -> Result<(), Fail> {
    let mut log = Log::new(ppm(Use::Excess)?, 7);
    let run = log.begin(Level::Low)?;
    let again = begin_number(&mut log, Level::High);
    let level = log.open_level();
    void(&mut log, run);
    assert_eq!(rt; again, Some(20));
    assert_eq!(rt; level, Some(Level::Low));
    assert_eq!(rt; log.open_level(), None);
    assert_eq!(rt; measure(&mut log, Level::High, Pair::new(1, 1)), None);
    assert_eq!(rt; log.begun(), 2);
    Ok(())
}

// The number of begin's refusal, none where a run is begun, which is then voided.
fn begin_number(log: &mut Log, level: Level) -> Option<u32>
    ensures { is_some (view log.old).current ≡ true → log.new ≡ log.old }
{
    match log.begin(level) {
        Err(refusal) => Some(refusal.number()),
        Ok(run) => {
            void(log, run);
            None
        }
    }
}

// A run of serial 7, level low and number 1 is closed in another log, in which some runs were voided and then one is begun:
// the number of the refusal, none where the run is taken.
fn foreign(rt: &impl Abort, serial: u16, voided: u8, level: Level) -> Result<Option<u32>, Fail> {
    let log = Log::new(ppm(Use::Excess)?, 7);
    let mut other = Log::new(ppm(Use::Excess)?, serial);
    for _ in 0..voided {
        assert_eq!(rt; begin_number(&mut other, level), None);
    }
    let held = other.begin(level)?;
    Ok(closed_elsewhere(log, &mut other, held))
}

fn closed_elsewhere(mut log: Log, other: &mut Log, held: BegunRun) -> Option<u32>
    requires log_value { (view log).current ≡ None }
    requires other_value { (view other.old).current ≡ Some held.id }
{
    match log.begin(Level::Low) {
        Err(refusal) => {
            void(other, held);
            Some(refusal.number())
        }
        Ok(run) => match other.close(run, Pair::new(1, 1)) {
            Ok(()) => {
                void(&mut log, held);
                None
            }
            Err(CloseRefusal { run, fault }) => {
                void(&mut log, run);
                void(other, held);
                Some(fault.number())
            }
        },
    }
}

#[test]
fn serial_level_and_number(rt: HostRuntime) -> Result<(), Fail> {
    assert_eq!(rt; foreign(&rt, 8, 0, Level::Low)?, Some(23));
    assert_eq!(rt; foreign(&rt, 7, 0, Level::Mid)?, Some(23));
    assert_eq!(rt; foreign(&rt, 7, 1, Level::Low)?, Some(23));
    assert_eq!(rt; foreign(&rt, 7, 0, Level::Low)?, None);
    Ok(())
}

fn named(serial: u16, level: Level, number: u8) -> RunId {
    RunId {
        serial,
        level,
        number,
    }
}

fn close(run: RunId, reference: u32) -> Call {
    Call::Close {
        run,
        pair: Pair::new(reference, 1900),
    }
}

#[test]
fn lists_of_calls(rt: HostRuntime) -> Result<(), Fail> {
    let first = named(7, Level::Low, 1);
    let calls = [
        close(first, 1),
        Call::Begin(Level::Low),
        Call::Begin(Level::Mid),
        close(named(8, Level::Low, 1), 2),
        close(named(7, Level::Mid, 1), 3),
        close(named(7, Level::Low, 2), 4),
        close(first, 50_001),
        Call::Judge,
        close(first, 2000),
        close(first, 5),
        Call::Void(first),
        Call::Begin(Level::Low),
        Call::Void(named(7, Level::Low, 2)),
        Call::Begin(Level::High),
    ];
    let Replayed { mut log, run } = replay(ppm(Use::Excess)?, 7, &calls);
    let still_begun = end(&mut log, run);
    assert_eq!(rt; still_begun, Some(named(7, Level::High, 3)));
    assert_eq!(rt; log.begun(), 3);
    assert_eq!(rt; log.closed(Level::Mid).len(), 0);
    let low = log.closed(Level::Low);
    assert!(rt; low.len() == 1);
    assert_eq!(rt; low[0].reference, 2000);
    Ok(())
}

// A void that names another serial, level or number leaves the run begun.
#[test]
fn void_of_another_run(rt: HostRuntime) -> Result<(), Fail> {
    for other in [
        named(8, Level::Low, 1),
        named(7, Level::Mid, 1),
        named(7, Level::Low, 2),
    ] {
        let calls = [Call::Begin(Level::Low), Call::Void(other)];
        let Replayed { mut log, run } = replay(ppm(Use::Excess)?, 7, &calls);
        let still_begun = end(&mut log, run);
        assert_eq!(rt; still_begun, Some(named(7, Level::Low, 1)));
    }
    Ok(())
}
