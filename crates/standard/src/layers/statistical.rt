// Statistics: the tests for compliance use.
ghost use Rattle.std.specs.Prelude.{◌≡◌};
ghost use Rattle.standard.specs.Layers.{is_past_mending, statistics};
ghost use Rattle.std.proofs.Common.{rules};

use super::Statistics;
use crate::standards::{Limits, Standard};
use statistics::{are_correlated, is_biased, is_steady};
use tally::Tally;
use terms::Level;

impl<S: Standard> Standard for Statistics<S> {
    ghost meaning = { λ s. statistics s.head (S.Standard.meaning s.below) };

    ghost lawful = { Prim.search rules };

    fn accuracy(&self, level: Level, kept: &Tally) -> bool {
        self.below.accuracy(level, kept)
    }

    fn statistics(&self, level: Level, kept: &Tally) -> bool {
        self.below.statistics(level, kept)
            && is_steady(&self.head, kept)
            && !is_past_mending(level, kept)
    }

    fn together(&self, low: &Tally, mid: &Tally, high: &Tally) -> bool {
        self.below.together(low, mid, high) && are_correlated(low, mid, high)
    }

    fn limits(&self) -> Limits {
        Limits {
            least_kept: 9,
            most_struck: 3,
            most_in_all: 9,
        }
    }
}

// Whether a mid level is biased and, with predictions of nothing, no factor can mend it.
fn is_past_mending(level: Level, kept: &Tally) -> bool
    ensures { result ≡ is_past_mending level kept.now.sums }
{
    level == Level::Mid && kept.sums.p == 0 && is_biased(kept)
}
