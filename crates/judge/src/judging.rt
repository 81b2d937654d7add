// The verdict on the closed runs of three levels.
ghost use Rattle.std.specs.Prelude.{◌≡◌, [], ◌∷◌, length, nat_lt};
ghost use Rattle.std.specs.List.{find};
ghost use Rattle.judge.specs.Judging.{Answers};
ghost use Rattle.judge.specs.Law.{Law};
ghost use Rattle.runs.specs.Closed.{lists_of, pairs_of};
ghost use Rattle.terms.specs.Levels.{at_level};
ghost use Rattle.terms.specs.declared.levels.Level.TheVariants.{Low, Mid, High};

use crate::searching::Search;
use crate::verdicts::Verdict;
use runs::ClosedRuns;
use standard::Standard;
use terms::{Level, Levels};

// The allowed selection that meets the standard with fewest struck, or why there is none.
pub fn judge<S: Standard>(standard: &S, closed: &Levels<ClosedRuns>) -> Verdict
    ensures { Law (S.meaning standard.now) (lists_of closed.now) result }
{
    weigh(standard, closed)
}

fn weigh<S: Standard>(standard: &S, closed: &Levels<ClosedRuns>) -> Verdict
    ensures { Answers (S.meaning standard.now) (lists_of closed.now) result }
{
    if let Some(level) = short(standard.limits().least_kept, closed) {
        return Verdict::Short(level);
    }
    let mut search = Search::new(standard);
    search.gather(closed);
    match search.fewest() {
        Some((selection, struck)) => Verdict::Certified(selection, struck),
        None => Verdict::Denied(search.cause()),
    }
}

// The first level with fewer closed runs than the least to be kept.
fn short(least: u32, closed: &Levels<ClosedRuns>) -> Option<Level>
    ensures { result ≡ find (λ at. nat_lt (length (pairs_of (at_level closed.now at))) least) (Low ∷ Mid ∷ High ∷ []) }
{
    Level::ALL
        .iter()
        .copied()
        // A length has no `From` of a `u32`.
        .find(|level| closed.at(*level).len() < least as usize)
}
