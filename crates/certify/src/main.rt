// Runs one campaign from beginning to end and prints what was done.
#![tactic(auto)]

mod crew;

use campaign::BeginRefusal;
use crew::Crew;
use std::io;
use terms::{Head, HeadRefusal, Kind, Level, Pair, Use};
use thiserror::Error;

fn main(rt: HostRuntime) -> io::Result<()> {
    match boiler() {
        Ok(crew) => show(&rt, &crew),
        Err(refusal) => println!(rt; "refused {refusal}"),
    }
}

// Why a campaign came to no end, told by its number.
#[derive(Debug, Drop, Error)]
enum Refusal {
    #[error("{}", .0.number())]
    Head(#[from] HeadRefusal),
    #[error("{}", .0.number())]
    Begin(#[from] BeginRefusal),
}

// A boiler with a standard of 40 ppm is measured at three loads, in units of 0.1 ppm. Twice a reading is keyed in wrong,
// and its run is voided; once a run is given up.
fn boiler() -> Result<Crew, Refusal> {
    let head = Head::new(Kind::Ppm, Use::Excess, 400, 1000)?;
    let mut crew = Crew::new(head, 1);
    crew.measure_two(Level::Low, Pair::new(212, 208), Pair::new(205, 209))?;
    crew.measure(Level::Low, Pair::new(218, 214))?;
    crew.measure(Level::Mid, Pair::new(398_000, 396))?;
    crew.give_up(Level::Mid)?;
    crew.measure_two(Level::Mid, Pair::new(401, 396), Pair::new(394, 399))?;
    crew.measure(Level::Mid, Pair::new(410, 402))?;
    crew.measure_two(Level::High, Pair::new(655, 661_000), Pair::new(655, 661))?;
    crew.measure_two(Level::High, Pair::new(648, 650), Pair::new(660, 652))?;
    Ok(crew)
}

// A line for each level with its closed runs, then how many runs were begun and voided, and how many closes were refused.
fn show(rt: &impl Print, crew: &Crew) -> io::Result<()> {
    for level in Level::ALL {
        show_level(rt, crew, level)?;
    }
    println!(rt;
        "begun {}, voided {}, refused {}",
        crew.log.begun(),
        crew.voided,
        crew.refused
    )
}

fn show_level(rt: &impl Print, crew: &Crew, level: Level) -> io::Result<()> {
    let pairs = crew.log.closed(level);
    print!(rt; "{level} {} closed:", pairs.len())?;
    for pair in pairs {
        print!(rt; " {pair}")?;
    }
    println!(rt; "")
}
