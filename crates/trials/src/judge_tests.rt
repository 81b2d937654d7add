// Verdicts on small campaigns: certificates, every cause of a denial, and standards of our own.
ghost use Rattle.std.proofs.Common.{rules};

use crate::log_tests::{end, measure};
use crate::test_makings::ppm;
use campaign::{Call, Log, Replayed, RunId};
use certification::{Judged, judge_by, judge_by_ps16, replay_and_judge};
use judge::{Cause, Verdict};
use runs::Selection;
use standard::{Limits, Ps16, Standard};
use std::alloc::{AllocError, Global};
use std::process::Abort;
use std::test::Fail;
use tally::Tally;
use terms::{Head, Kind, Level, Pair, Use};

type Runs<'a> = &'a [Pair];

const RIGHT: Pair = Pair {
    reference: 2000,
    predicted: 2000,
};

const WRONG: Pair = Pair {
    reference: 2000,
    predicted: 5000,
};

const THREE_RIGHT: [Pair; 3] = [RIGHT, RIGHT, RIGHT];

fn close_all(rt: &impl Abort, log: &mut Log, level: Level, runs: Runs) {
    for run in runs {
        assert_eq!(rt; measure(log, level, *run), None);
    }
}

// Three slices, and no `Levels` of them, so that most calls fit on a line.
fn log_of(rt: &impl Abort, head: Head, low: Runs, mid: Runs, high: Runs) -> Log {
    let mut log = Log::new(head, 7);
    close_all(rt, &mut log, Level::Low, low);
    close_all(rt, &mut log, Level::Mid, mid);
    close_all(rt, &mut log, Level::High, high);
    log
}

fn excess_verdict(rt: &impl Abort, low: Runs, mid: Runs, high: Runs) -> Result<Verdict, Fail> {
    Ok(judge_by_ps16(&log_of(rt, ppm(Use::Excess)?, low, mid, high)))
}

fn certified(low: u32, mid: u32, high: u32, struck: u32) -> Verdict {
    Verdict::Certified(Selection { low, mid, high }, struck)
}

#[test]
fn certificates(rt: HostRuntime) -> Result<(), Fail> {
    let good = &THREE_RIGHT;
    assert_eq!(rt;
        excess_verdict(&rt, good, good, good)?,
        certified(0, 0, 0, 0)
    );
    let one = &[RIGHT, WRONG, RIGHT, RIGHT];
    assert_eq!(rt;
        excess_verdict(&rt, good, one, good)?,
        certified(0, 2, 0, 1)
    );
    assert_eq!(rt; excess_verdict(&rt, one, good, one)?, certified(2, 0, 2, 2));
    let two = &[RIGHT, RIGHT, WRONG, RIGHT, WRONG];
    assert_eq!(rt;
        excess_verdict(&rt, one, good, two)?,
        certified(2, 0, 20, 3)
    );
    Ok(())
}

// Any one of four runs can go: the first position at the lowest level has the smallest code.
#[test]
fn choice_among_equals(rt: HostRuntime) -> Result<(), Fail> {
    let far = &[
        Pair::new(2000, 1799),
        Pair::new(2000, 1800),
        Pair::new(2000, 1800),
        Pair::new(2000, 1800),
    ];
    assert_eq!(rt;
        excess_verdict(&rt, far, &THREE_RIGHT, far)?,
        certified(1, 0, 1, 2)
    );
    Ok(())
}

#[test]
fn too_few_runs(rt: HostRuntime) -> Result<(), Fail> {
    let good = &THREE_RIGHT;
    assert_eq!(rt;
        excess_verdict(&rt, good, good, &[])?,
        Verdict::Short(Level::High)
    );
    assert_eq!(rt;
        excess_verdict(&rt, good, &[RIGHT, RIGHT], &[])?,
        Verdict::Short(Level::Mid)
    );
    Ok(())
}

#[test]
fn excess_causes(rt: HostRuntime) -> Result<(), Fail> {
    let good = &THREE_RIGHT;
    let bad = &[WRONG, WRONG, WRONG];
    assert_eq!(rt;
        excess_verdict(&rt, good, bad, bad)?,
        Verdict::Denied(Cause::Accuracy(Level::Mid))
    );
    let two = &[RIGHT, RIGHT, RIGHT, WRONG, WRONG];
    let high = &[
        Pair::new(3000, 3000),
        Pair::new(3000, 3000),
        Pair::new(3000, 3000),
    ];
    assert_eq!(rt;
        excess_verdict(&rt, two, two, high)?,
        Verdict::Denied(Cause::TooMany)
    );
    Ok(())
}

fn nine(reference: u32, predicted: u32) -> [Pair; 9] {
    [Pair::new(reference, predicted); 9]
}

fn compliance_verdict(
    rt: &impl Abort,
    span: u32,
    low: Runs,
    mid: Runs,
    high: Runs,
) -> Result<Verdict, Fail> {
    let head = Head::new(Kind::Ppm, Use::Compliance, 2000, span)?;
    Ok(judge_by_ps16(&log_of(rt, head, low, mid, high)))
}

#[test]
fn compliance(rt: HostRuntime) -> Result<(), Fail> {
    let (low, mid, high) = (&nine(2000, 2000), &nine(3000, 3000), &nine(4000, 4000));
    assert_eq!(rt;
        compliance_verdict(&rt, 5000, low, mid, high)?,
        certified(0, 0, 0, 0)
    );
    assert_eq!(rt;
        compliance_verdict(&rt, 5000, low, low, low)?,
        Verdict::Denied(Cause::Together)
    );
    let mut unsteady = nine(4000, 4000);
    unsteady[2].predicted = 3900;
    unsteady[5].predicted = 4100;
    assert_eq!(rt;
        compliance_verdict(&rt, 1, low, mid, &unsteady)?,
        Verdict::Denied(Cause::Statistics(Level::High))
    );
    Ok(())
}

#[test]
fn diluents(rt: HostRuntime) -> Result<(), Fail> {
    let excess = Head::new(Kind::Diluent, Use::Excess, 0, 2500)?;
    let apart = &[
        Pair::new(400, 300),
        Pair::new(400, 300),
        Pair::new(400, 300),
    ];
    let log = log_of(
        &rt,
        excess,
        apart,
        apart,
        &[
            Pair::new(400, 299),
            Pair::new(400, 299),
            Pair::new(400, 299),
        ],
    );
    assert_eq!(rt;
        judge_by_ps16(&log),
        Verdict::Denied(Cause::Accuracy(Level::High))
    );
    let compliance = Head::new(Kind::Diluent, Use::Compliance, 0, 2500)?;
    let log = log_of(
        &rt,
        compliance,
        &nine(400, 400),
        &nine(600, 600),
        &nine(74, 90),
    );
    assert_eq!(rt; judge_by_ps16(&log), certified(0, 0, 0, 0));
    Ok(())
}

// A standard that nobody meets, or everybody, without a run struck.
#[derive(Drop)]
struct Always {
    answer: bool,
}

impl Standard for Always {
    ghost meaning = { λ s. record { accuracy = λ _ _. s.answer; statistics = λ _ _. s.answer; together = λ _ _ _. s.answer; least_kept = 3; most_struck = 1; most_in_all = 2 } };

    ghost lawful = { Prim.search rules };

    fn accuracy(&self, _level: Level, _kept: &Tally) -> bool {
        self.answer
    }

    fn statistics(&self, _level: Level, _kept: &Tally) -> bool {
        self.answer
    }

    fn together(&self, _low: &Tally, _mid: &Tally, _high: &Tally) -> bool {
        self.answer
    }

    fn limits(&self) -> Limits {
        Limits {
            least_kept: 3,
            most_struck: 1,
            most_in_all: 2,
        }
    }
}

#[test]
fn met_by_all_or_none(rt: HostRuntime) -> Result<(), Fail> {
    let log = log_of(
        &rt,
        ppm(Use::Excess)?,
        &THREE_RIGHT,
        &[WRONG, WRONG, WRONG],
        &THREE_RIGHT,
    );
    assert_eq!(rt;
        judge_by(&Always { answer: true }, &log),
        certified(0, 0, 0, 0)
    );
    assert_eq!(rt;
        judge_by(&Always { answer: false }, &log),
        Verdict::Denied(Cause::Accuracy(Level::Low))
    );
    Ok(())
}

// Nine runs at each level, all of one pair.
fn nine_a_level(alloc: Global, pair: Pair) -> Result<Vec<Call>, AllocError> {
    let mut calls = Vec::new(alloc);
    let mut number = 0u8;
    for level in Level::ALL {
        for _ in 0..9 {
            number = number.wrapping_add(1);
            let run = RunId {
                serial: 7,
                level,
                number,
            };
            calls.push(Call::Begin(level))?;
            calls.push(Call::Close { run, pair })?;
        }
    }
    Ok(calls)
}

fn verdict_on<S: Standard>(standard: &S, head: Head, calls: &[Call]) -> Verdict {
    let Judged { replayed, verdict } = replay_and_judge(standard, head, 7, calls);
    let Replayed { mut log, run } = replayed;
    end(&mut log, run);
    verdict
}

// Without a spread there is no correlation, so compliance is denied.
#[test]
fn lists_of_calls_under_every_standard(rt: HostRuntime) -> Result<(), Fail> {
    let calls = nine_a_level(rt.alloc(), RIGHT)?;
    let calls = calls.as_slice();
    for (kind, emission) in [(Kind::Ppm, 1), (Kind::Heat, 1), (Kind::Diluent, 0)] {
        for usage in [Use::Excess, Use::Compliance] {
            let head = Head::new(kind, usage, emission, 1)?;
            let verdict = match Ps16::of(head) {
                Ps16::Excess(s) => verdict_on(&s, head, calls),
                Ps16::ExcessDiluent(s) => verdict_on(&s, head, calls),
                Ps16::Compliance(s) => verdict_on(&s, head, calls),
                Ps16::ComplianceDiluent(s) => verdict_on(&s, head, calls),
            };
            let expected = match usage {
                Use::Excess => certified(0, 0, 0, 0),
                Use::Compliance => Verdict::Denied(Cause::Together),
            };
            assert_eq!(rt; verdict, expected);
        }
    }
    let head = ppm(Use::Excess)?;
    assert_eq!(rt;
        verdict_on(&Always { answer: true }, head, calls),
        certified(0, 0, 0, 0)
    );
    assert_eq!(rt;
        verdict_on(&Always { answer: false }, head, calls),
        Verdict::Denied(Cause::Accuracy(Level::Low))
    );
    Ok(())
}

#[test]
fn a_list_of_calls(rt: HostRuntime) -> Result<(), Fail> {
    let run = RunId {
        serial: 7,
        level: Level::High,
        number: 1,
    };
    let calls = [
        Call::Judge,
        Call::Begin(Level::High),
        Call::Close {
            run,
            pair: Pair::new(1, 1),
        },
        Call::Void(run),
        Call::Judge,
    ];
    let verdict = verdict_on(&Always { answer: true }, ppm(Use::Excess)?, &calls);
    assert_eq!(rt; verdict, Verdict::Short(Level::Low));
    Ok(())
}
