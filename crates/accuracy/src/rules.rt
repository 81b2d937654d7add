// The accuracy of a pollutant and of a diluent.
ghost use Rattle.std.specs.Prelude.{◌≡◌, ◌≤◌, true, ◌↔◌};
ghost use Rattle.accuracy.specs.Accuracy.{diluent_accurate, is_within, pollutant_accurate};
ghost use Rattle.accuracy.specs.Words.{Accurate, AccurateDiluent, Flawless};

use crate::coefficient::confidence;
use crate::limits::{Marks, limit, reference};
use tally::Tally;
use terms::Head;

// Whether a pollutant's predictions are accurate, under a head's emission standard. Head and tally come apart here and below: a
// layer keeps its head, and each question brings its tally.
pub fn pollutant(head: &Head, tally: &Tally) -> bool
    ensures value { result ≡ pollutant_accurate head.now.kind head.now.emission tally.now.sums }
    ensures words { (result ≡ true) ↔ Accurate head.now.kind head.now.emission tally.now.sums }
    ensures flawless { 3 ≤ tally.now.sums.n → Flawless tally.now.sums → result ≡ true }
{
    let n = tally.sums.n;
    if n < 3 {
        return false;
    }
    let marks = Marks::of(head.kind);
    if tally.sums.p < marks.low * n {
        return tally.distance() <= marks.margin * n;
    }
    is_within(tally, limit(head.kind, tally), reference(head, tally))
}

// Whether a diluent's predictions are accurate.
pub fn diluent(tally: &Tally) -> bool
    ensures value { result ≡ diluent_accurate tally.now.sums }
    ensures words { (result ≡ true) ↔ AccurateDiluent tally.now.sums }
    ensures flawless { 3 ≤ tally.now.sums.n → Flawless tally.now.sums → result ≡ true }
{
    is_within(tally, 20, tally.sums.r)
}

// Whether the differences and their confidence coefficient are within a limit in percent of a reference.
fn is_within(tally: &Tally, limit: u64, reference: u64) -> bool
    requires limit { limit ≤ 20 }
    requires reference { reference ≤ 600000 }
    ensures { result ≡ is_within limit reference tally.now.sums }
{
    let Some(confidence) = confidence(tally) else {
        return false;
    };
    let Some(left) = (limit * reference).checked_sub(100 * tally.distance()) else {
        return false;
    };
    confidence <= 100 * (tally.sums.n - 1) * (left * left)
}
