// Where the statistical tests of a level are waived.
ghost use Rattle.std.specs.Prelude.{◌≡◌};
ghost use Rattle.statistics.specs.Waiver.{is_waived};

use tally::Tally;
use terms::{Head, Kind};

// Whether the mean reference is below 10 ppm or 5 percent of the emission standard, or for a diluent below 3 percent of the
// span. Head and tally come apart: a layer keeps its head, and each question brings its tally.
pub fn is_waived(head: &Head, tally: &Tally) -> bool
    ensures { result ≡ is_waived head.now.kind head.now.emission head.now.span tally.now.sums }
{
    let n = tally.sums.n;
    let r = tally.sums.r;
    let is_low = 20 * r < n * u64::from(head.emission);
    match head.kind {
        Kind::Ppm => r < 100 * n || is_low,
        Kind::Heat => is_low,
        Kind::Diluent => 100 * r < 3 * (n * u64::from(head.span)),
    }
}
