// How the closed runs of a level are read, and how one more is put last.
ghost use Rattle.std.specs.Prelude.{◌≡◌, ◌<◌, ◌≤◌, max, [], ◌∷◌, length, OnOk};
ghost use Rattle.runs.specs.Closed.{PushAnswer, pairs_of};
ghost use Rattle.runs.specs.Sets.{kept};
ghost use Rattle.tally.specs.Sums.{plus, sums_of};
ghost use Rattle.terms.specs.Readings.{higher, highest};

use super::ClosedRuns;
use tally::Tally;
use terms::{Pair, PairRefusal};

impl ClosedRuns {
    // No runs.
    pub fn new() -> ClosedRuns
        ensures { pairs_of result ≡ [] }
    {
        ClosedRuns {
            runs: [Pair::default(); 12],
            count: 0,
        }
    }

    // How many there are.
    pub fn len(&self) -> usize
        ensures { result ≡ length (pairs_of self.now) }
    {
        self.as_slice().len()
    }

    // The pairs, in closing order.
    pub fn as_slice(&self) -> &[Pair]
        ensures pairs { result.now ≡ pairs_of self.now }
        ensures few { length result.now ≤ 12 }
        ensures within { highest result.now ≤ 50000 }
    {
        &self.runs[0..self.count]
    }

    // Puts a pair last, or refuses it and leaves all as it was.
    pub fn push(&mut self, pair: Pair) -> Result<(), PairRefusal>
        ensures answer { PushAnswer self.old pair self.new result }
        ensures highest { OnOk result (highest (pairs_of self.new) ≡ max (highest (pairs_of self.old)) (higher pair)) }
    {
        pair.admit(self.count)?;
        self.runs[self.count] = pair;
        self.count += 1;
        Ok(())
    }

    // The tally of the runs that a set of struck positions leaves. Position k, from 1, counts 2^(k − 1) in a set.
    pub fn kept(&self, struck: u32) -> Tally
        ensures { result.sums ≡ sums_of (kept struck (pairs_of self.now)) }
    {
        let mut tally = Tally::none();
        // Halved beside the pairs, as the definition of what is kept halves it: a shift by an index would need a lemma.
        let mut rest = struck;
        let pairs = self.as_slice();
        for pair in pairs {
            if rest % 2 == 0 {
                take_in(&mut tally, pair);
            }
            rest /= 2;
        }
        tally
    }
}

// Takes a pair into a tally that has room for it.
fn take_in(tally: &mut Tally, pair: &Pair)
    requires room { tally.old.sums.n < 12 }
    requires within { higher pair.now ≤ 50000 }
    ensures { tally.new.sums ≡ plus tally.old.sums (sums_of (pair.now ∷ [])) }
{
    tally.add(pair).unwrap();
}
