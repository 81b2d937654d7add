// Why no allowed selection meets a standard.
ghost use Rattle.std.specs.Prelude.{◌≡◌, List, ◌==◌, if◌then◌else◌, map, min, not};
ghost use Rattle.arrayvec.specs.ArrayVec.{array_vec_len};
ghost use Rattle.std.specs.List.{list_any, position, reduce};
ghost use Rattle.judge.specs.Causes.{Shows, ShowsInAll};
ghost use Rattle.judge.specs.Judging.{Because, Campaign};
ghost use Rattle.judge.specs.Search.{Groups, Searches};
ghost use Rattle.judge.specs.Shortlists.{Whole, listed};
ghost use Rattle.judge.specs.declared.verdicts.Cause.TheVariants.{Accuracy, Statistics};
ghost use Rattle.standard.specs.Meaning.{Lawful, Meaning};
ghost use Rattle.terms.specs.declared.pairs.Pair.{Pair};

use crate::searching::Search;
use crate::shortlists::{ByCount, Shortlist};
use crate::verdicts::Cause;
use standard::Standard;
use terms::Level;

impl<S: Standard> Search<'_, S> {
    // The first level with no set that gets both yeses is to blame; else, whether even the fewest struck are too many in all.
    pub(crate) fn cause(&self) -> Cause
        ensures { (c : Campaign) → Searches (S.meaning self.now.standard.now) c self.now.low self.now.mid self.now.high → Because (S.meaning self.now.standard.now) c result }
    {
        match self.fewest_in_all() {
            Err(cause) => cause,
            Ok(fewest) if fewest > self.standard.limits().most_in_all => Cause::TooMany,
            Ok(_) => Cause::Together,
        }
    }

    // The fewest that sets with both yeses strike in all, together or not.
    fn fewest_in_all(&self) -> Result<u32, Cause>
        ensures { (c : Campaign) → Searches (S.meaning self.now.standard.now) c self.now.low self.now.mid self.now.high → ShowsInAll (S.meaning self.now.standard.now) c result }
    {
        let low = self.low.fewest(Level::Low)?;
        let mid = self.mid.fewest(Level::Mid)?;
        let high = self.high.fewest(Level::High)?;
        Ok(u32::from(low) + u32::from(mid) + u32::from(high))
    }
}

impl ByCount {
    // The fewest that a set strikes, or which of the two yeses is wanting at the level.
    fn fewest(&self, level: Level) -> Result<u8, Cause>
        ensures { (m : Meaning) (runs : List Pair) → Lawful m → Groups m level runs self.now → Shows m level runs result }
    {
        match self.least() {
            // A byte has no `From` of an index.
            Some(count) => Ok(count as u8),
            None => Err(wanting(level, self.accurate())),
        }
    }

    // The first group that has any set.
    fn least(&self) -> Option<usize>
        ensures { result ≡ position (λ list. not (array_vec_len list.entries == 0)) self.now.groups }
    {
        self.groups.iter().position(|list| !list.entries.is_empty())
    }

    // Whether any group has an accurate set.
    fn accurate(&self) -> bool
        ensures { result ≡ list_any (λ list. list.accurate) self.now.groups }
    {
        self.groups.iter().any(|list| list.accurate)
    }
}

impl Shortlist {
    // The same of a list of all sets.
    fn fewest(&self, level: Level) -> Result<u8, Cause>
        ensures { (m : Meaning) (runs : List Pair) → Lawful m → Whole m level runs 0 3 self.now → Shows m level runs result }
    {
        self.least().ok_or(wanting(level, self.accurate))
    }

    // The fewest that a set of the list strikes, if it has any.
    fn least(&self) -> Option<u8>
        ensures { result ≡ reduce min (map (λ e. e.struck) (listed self.now)) }
    {
        self.items().iter().map(|entry| entry.struck).min()
    }
}

// Which of the two yeses is wanting at a level where no fitting set gets both.
fn wanting(level: Level, accurate: bool) -> Cause
    ensures { result ≡ (if accurate then Statistics level else Accuracy level) }
{
    if accurate {
        Cause::Statistics(level)
    } else {
        Cause::Accuracy(level)
    }
}
