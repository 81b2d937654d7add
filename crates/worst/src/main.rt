// The longest campaign to judge: twelve runs at each level, of which every set is accurate and steady and no selection correlates.
// The judge asks all of the 26,730,899 selections, and denies.
#![tactic(auto)]

use campaign::{BeginRefusal, CloseRefusal, Log};
use certification::judge_by_ps16;
use judge::Verdict;
use std::io;
use terms::{Head, Kind, Level, Pair, Use};

fn main(rt: HostRuntime) -> io::Result<()> {
    let Ok(head) = Head::new(Kind::Ppm, Use::Compliance, 2000, 5000) else {
        return println!(rt; "no head");
    };
    let mut log = Log::new(head, 0);
    for level in Level::ALL {
        for k in 0..12 {
            if measure(&mut log, level, run(k)).is_err() {
                return println!(rt; "no run");
            }
        }
    }
    match judge_by_ps16(&log) {
        Verdict::Short(level) => println!(rt; "refused 30 {level}"),
        Verdict::Certified(_, struck) => println!(rt; "certified {struck}"),
        Verdict::Denied(cause) => println!(rt; "not certified {cause}"),
    }
}

// References and predictions that are high or low by turns, each in its own measure, so that neither tells of the other.
fn run(k: u32) -> Pair {
    let reference = if k % 2 == 0 { 1960 } else { 2040 };
    let predicted = if k % 4 < 2 { 1960 } else { 2040 };
    Pair::new(reference, predicted)
}

// Closes a run at a level, or voids it where its readings are refused.
fn measure(log: &mut Log, level: Level, pair: Pair) -> Result<(), BeginRefusal> {
    let run = log.begin(level)?;
    if let Err(CloseRefusal { run, fault: _ }) = log.close(run, pair) {
        log.void(run).unwrap();
    }
    Ok(())
}
