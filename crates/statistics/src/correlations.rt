// The correlation of references and predictions over all three levels.
ghost use Rattle.std.specs.Prelude.{◌≡◌};
ghost use Rattle.statistics.specs.Correlation.{is_correlated};
ghost use Rattle.tally.specs.Sums.{plus};

use fractions::Fraction;
use tally::{Joined, Tally};

// Whether the correlation is at least 0.8: X, Y and Z are above 0, and 25·Z² is at least 16·X·Y. Both products pass one
// machine word, so Z/X is held against 16·Y/(25·Z). The tallies come as three references, as a standard is given them.
pub fn are_correlated(low: &Tally, mid: &Tally, high: &Tally) -> bool
    ensures { result ≡ is_correlated (plus (plus low.now.sums mid.now.sums) high.now.sums) }
{
    let joined = Joined::of(low, mid, high);
    let Some(z) = joined.shared_spread() else {
        return false;
    };
    let x = joined.reference_spread();
    let y = joined.predicted_spread();
    let slope = Fraction { top: z, bottom: x };
    let least = Fraction {
        top: 16 * y,
        bottom: 25 * z,
    };
    slope.not_less(least)
}
