// Absolute: accurate too within a margin.
ghost use Rattle.std.specs.Prelude.{◌≡◌, ◌<◌, ◌≤◌};
ghost use Rattle.standard.specs.Answers.{AbsoluteAnswer, margin_number};
ghost use Rattle.standard.specs.Layers.{absolute};
ghost use Rattle.std.proofs.Common.{rules};

use super::{Absolute, MarginRefusal};
use crate::standards::{Limits, Standard};
use tally::Tally;
use terms::Level;

impl<S> Absolute<S> {
    // A margin in units over the standard below.
    pub fn over(below: S, margin: u32) -> Result<Absolute<S>, MarginRefusal<S>>
        ensures { AbsoluteAnswer below margin result }
    {
        if margin > 50_000 {
            return Err(MarginRefusal { below });
        }
        Ok(Absolute { below, margin })
    }
}

impl<S> MarginRefusal<S> {
    // The number by which the refusal is told, which a struct can carry in no case.
    pub fn number(&self) -> u32
        ensures { result ≡ margin_number }
    {
        12
    }
}

impl<S: Standard> Standard for Absolute<S> {
    ghost meaning = { λ s. absolute s.margin (S.Standard.meaning s.below) };

    ghost lawful = { Prim.search rules };

    fn accuracy(&self, level: Level, kept: &Tally) -> bool {
        self.below.accuracy(level, kept) || kept.distance() <= u64::from(self.margin) * kept.sums.n
    }

    fn statistics(&self, level: Level, kept: &Tally) -> bool {
        self.below.statistics(level, kept)
    }

    fn together(&self, low: &Tally, mid: &Tally, high: &Tally) -> bool {
        self.below.together(low, mid, high)
    }

    fn limits(&self) -> Limits {
        self.below.limits()
    }
}
