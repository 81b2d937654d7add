// What the judge answers.
ghost use Rattle.std.specs.Prelude.{◌≡◌, Some};
ghost use Rattle.judge.specs.Numbers.{cause_level, cause_number, cause_text, verdict_level, verdict_number};

use runs::Selection;
use std::fmt;
use terms::Level;

// Why no allowed selection meets a standard.
#[derive(Clone, Copy, PartialEq, Eq, Debug)]
pub enum Cause {
    // At this level, the first such, no fitting set gets both yeses, and none is accurate.
    Accuracy(Level),
    // At this level, the first such, no fitting set gets both yeses, and some are accurate.
    Statistics(Level),
    // Fitting sets with both yeses always strike too many in all.
    TooMany,
    // They do not, but the three levels get no yes together.
    Together,
}

#[derive(Clone, Copy, PartialEq, Eq, Debug)]
pub enum Verdict {
    // The first level with fewer closed runs than the least to be kept.
    Short(Level),
    // The selection, and how many runs it strikes.
    Certified(Selection, u32),
    Denied(Cause),
}

impl Cause {
    // The number by which a cause is told, matched, since a case that holds a level can carry no number.
    pub fn number(self) -> u32
        ensures { result ≡ cause_number self }
    {
        match self {
            Cause::Accuracy(_) => 40,
            Cause::Statistics(_) => 41,
            Cause::TooMany => 42,
            Cause::Together => 43,
        }
    }

    // The level that a cause names.
    pub fn level(self) -> Option<Level>
        ensures { result ≡ cause_level self }
    {
        match self {
            Cause::Accuracy(level) | Cause::Statistics(level) => Some(level),
            Cause::TooMany | Cause::Together => None,
        }
    }
}

// A cause is written by its number and the level that it names.
impl fmt::Display for Cause {
    ghost output = { λ cause. Some (cause_text cause) };

    fn fmt<W: fmt::Write>(&self, f: &mut fmt::Formatter<W>) -> fmt::Result {
        match self.level() {
            Some(level) => write!(f, "{} {level}", self.number()),
            None => write!(f, "{}", self.number()),
        }
    }
}

impl Verdict {
    // The number by which a refusal or a denial is told, matched for the same reason.
    pub fn number(self) -> Option<u32>
        ensures { result ≡ verdict_number self }
    {
        match self {
            Verdict::Short(_) => Some(30),
            Verdict::Certified(_, _) => None,
            Verdict::Denied(cause) => Some(cause.number()),
        }
    }

    // The level that it names.
    pub fn level(self) -> Option<Level>
        ensures { result ≡ verdict_level self }
    {
        match self {
            Verdict::Short(level) => Some(level),
            Verdict::Certified(_, _) => None,
            Verdict::Denied(cause) => cause.level(),
        }
    }
}
