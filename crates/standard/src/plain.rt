// The standards of a pollutant and of a diluent, which have nothing below them.
ghost use Rattle.standard.specs.Plain.{diluent, pollutant};
ghost use Rattle.std.proofs.Common.{rules};

use crate::standards::{Limits, Standard};
use tally::Tally;
use terms::{Head, Level};

// The limits where accuracy alone is asked.
const ACCURACY_ALONE: Limits = Limits {
    least_kept: 3,
    most_struck: 3,
    most_in_all: 3,
};

// Relative accuracy under a head's emission standard, by the marks of its kind.
#[derive(Clone, Copy)]
pub struct Pollutant {
    pub head: Head,
}

impl Standard for Pollutant {
    ghost meaning = { λ s. pollutant s.head };

    ghost lawful = { Prim.search rules };

    fn accuracy(&self, _level: Level, kept: &Tally) -> bool {
        accuracy::pollutant(&self.head, kept)
    }

    fn statistics(&self, _level: Level, _kept: &Tally) -> bool {
        true
    }

    fn together(&self, _low: &Tally, _mid: &Tally, _high: &Tally) -> bool {
        true
    }

    fn limits(&self) -> Limits {
        ACCURACY_ALONE
    }
}

// Relative accuracy within 20 percent of the references. What else it tells is what a pollutant's standard tells: a
// trait and a struct to share these three words would be longer than they are, and the trait `Standard` can hold no body that is
// right under every meaning.
#[derive(Clone, Copy)]
pub struct Diluent;

impl Standard for Diluent {
    ghost meaning = { λ _. diluent };

    ghost lawful = { Prim.search rules };

    fn accuracy(&self, _level: Level, kept: &Tally) -> bool {
        accuracy::diluent(kept)
    }

    fn statistics(&self, _level: Level, _kept: &Tally) -> bool {
        true
    }

    fn together(&self, _low: &Tally, _mid: &Tally, _high: &Tally) -> bool {
        true
    }

    fn limits(&self) -> Limits {
        ACCURACY_ALONE
    }
}
