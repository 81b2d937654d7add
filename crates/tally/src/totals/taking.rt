// How pairs are taken into a tally.
ghost use Rattle.std.specs.Prelude.{◌≡◌};
ghost use Rattle.tally.specs.Sums.{none};
ghost use Rattle.tally.specs.Tallying.{AddAnswer, TallyAnswer};

use super::Tally;
use crate::sums::Sums;
use terms::{Pair, PairRefusal};

impl Tally {
    // Of no pairs.
    pub fn none() -> Tally
        ensures { result.sums ≡ none }
    {
        Tally {
            sums: Sums::default(),
        }
    }

    // Of the pairs of a slice, unless there are too many or a reading is over 50,000.
    pub fn of(pairs: &[Pair]) -> Result<Tally, PairRefusal>
        ensures { TallyAnswer pairs.now result }
    {
        if pairs.len() > 12 {
            return Err(PairRefusal::Full);
        }
        let mut tally = Tally::none();
        // One loop over the slice: six sums by iterators would go through it six times.
        for pair in pairs {
            tally.add(pair)?;
        }
        Ok(tally)
    }

    // Takes one pair more, or refuses it and stays as it was.
    pub fn add(&mut self, pair: &Pair) -> Result<(), PairRefusal>
        ensures { AddAnswer self.old pair.now self.new result }
    {
        let sums = self.sums;
        // A length has no `From` of a `u64`.
        pair.admit(sums.n as usize)?;
        let r = u64::from(pair.reference);
        let p = u64::from(pair.predicted);
        *self = Tally {
            sums: Sums {
                n: sums.n + 1,
                r: sums.r + r,
                p: sums.p + p,
                rr: sums.rr + r * r,
                pp: sums.pp + p * p,
                rp: sums.rp + r * p,
            },
        };
        Ok(())
    }
}
