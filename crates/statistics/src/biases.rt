// The bias test: whether the predictions are low by more than their confidence.
ghost use Rattle.std.specs.Prelude.{◌≡◌, true, ◌↔◌};
ghost use Rattle.statistics.specs.Bias.{is_biased};
ghost use Rattle.statistics.specs.Words.{Biased};

use accuracy::confidence;
use tally::Tally;

// Whether the mean difference is above the confidence coefficient. Fewer than three runs have no coefficient, and no bias.
pub fn is_biased(tally: &Tally) -> bool
    ensures value { result ≡ is_biased tally.now.sums }
    ensures words { (result ≡ true) ↔ Biased tally.now.sums }
{
    let Some(confidence) = confidence(tally) else {
        return false;
    };
    let Some(difference) = tally.sums.r.checked_sub(tally.sums.p) else {
        return false;
    };
    confidence < 1_000_000 * (tally.sums.n - 1) * (difference * difference)
}
