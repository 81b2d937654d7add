// The three levels of load at which a monitor is held against the reference.
ghost use Rattle.std.specs.Prelude.{◌≡◌, Some};
ghost use Rattle.terms.specs.Levels.{at_level};
ghost use Rattle.terms.specs.Texts.{level_name};

use std::fmt;

#[derive(Clone, Copy, PartialEq, Eq, Debug)]
pub enum Level {
    Low,
    Mid,
    High,
}

impl Level {
    pub const ALL: [Level; 3] = [Level::Low, Level::Mid, Level::High];
}

// One thing for each level.
#[derive(Clone, Copy, PartialEq, Eq, Debug, Drop)]
pub struct Levels<T> {
    pub low: T,
    pub mid: T,
    pub high: T,
}

impl<T> Levels<T> {
    // What a level has.
    pub fn at(&self, level: Level) -> &T
        ensures { result.now ≡ at_level self.now level }
    {
        match level {
            Level::Low => &self.low,
            Level::Mid => &self.mid,
            Level::High => &self.high,
        }
    }
}

impl fmt::Display for Level {
    ghost output = { λ level. Some (level_name level) };

    fn fmt<W: fmt::Write>(&self, f: &mut fmt::Formatter<W>) -> fmt::Result {
        f.write_str(match self {
            Level::Low => "low",
            Level::Mid => "mid",
            Level::High => "high",
        })
    }
}
