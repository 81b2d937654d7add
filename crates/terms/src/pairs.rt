// Pairs of readings.
ghost use Rattle.std.specs.Prelude.{◌≡◌, Some};
ghost use Rattle.terms.specs.Pairs.{AdmitAnswer};
ghost use Rattle.terms.specs.Texts.{pair_text};

use std::fmt;

// The most pairs of a level.
const MOST_PAIRS: usize = 12;

// The highest reading of any kind.
const TOP_READING: u32 = 50_000;

// A run's reference reading and the reading that the monitor predicted beside it, in units of the monitor's kind.
#[derive(Clone, Copy, PartialEq, Eq, Debug, Default)]
pub struct Pair {
    pub reference: u32,
    pub predicted: u32,
}

// Why a pair is not taken in among the pairs of a level.
#[derive(Clone, Copy, PartialEq, Eq, Debug)]
pub enum PairRefusal {
    // There would be more than twelve.
    Full,
    // A reading is over 50,000, which is the top of any kind.
    OverTop,
}

impl Pair {
    pub fn new(reference: u32, predicted: u32) -> Pair
        ensures reference { result.reference ≡ reference }
        ensures predicted { result.predicted ≡ predicted }
    {
        Pair {
            reference,
            predicted,
        }
    }

    // Whether the pair is taken in among the pairs of a level, beside so many others.
    pub fn admit(self, others: usize) -> Result<(), PairRefusal>
        ensures { AdmitAnswer others self result }
    {
        if others >= MOST_PAIRS {
            return Err(PairRefusal::Full);
        }
        if self.reference.max(self.predicted) > TOP_READING {
            return Err(PairRefusal::OverTop);
        }
        Ok(())
    }
}

impl fmt::Display for Pair {
    ghost output = { λ q. Some (pair_text q) };

    fn fmt<W: fmt::Write>(&self, f: &mut fmt::Formatter<W>) -> fmt::Result {
        write!(f, "{}/{}", self.reference, self.predicted)
    }
}
