// The marks of a kind, the limit in percent, and what it is of.
ghost use Rattle.std.specs.Prelude.{◌≡◌, ◌≤◌};
ghost use Rattle.accuracy.specs.Accuracy.{limit_of, marks_of, reference_of};

use tally::Tally;
use terms::{Head, Kind};

// In units a run: predictions above the high mark are held to 10 percent, those below the low mark to the margin.
#[derive(Clone, Copy)]
pub(crate) struct Marks {
    pub(crate) high: u64,
    pub(crate) low: u64,
    pub(crate) margin: u64,
}

impl Marks {
    pub(crate) fn of(kind: Kind) -> Marks
        ensures value { result ≡ marks_of kind }
        ensures top { (result.high ≤ 2000) × (result.low ≤ 500) × (result.margin ≤ 100) }
    {
        match kind {
            Kind::Ppm => Marks {
                high: 1000,
                low: 100,
                margin: 20,
            },
            Kind::Heat | Kind::Diluent => Marks {
                high: 2000,
                low: 500,
                margin: 100,
            },
        }
    }
}

// The limit in percent.
pub(crate) fn limit(kind: Kind, tally: &Tally) -> u64
    ensures value { result ≡ limit_of kind tally.now.sums }
    ensures top { result ≤ 20 }
{
    if tally.sums.p > Marks::of(kind).high * tally.sums.n {
        10
    } else {
        20
    }
}

// What the limit is of: the references, or the emission standard where they are below half of it. Head and tally come apart as in
// the question above.
pub(crate) fn reference(head: &Head, tally: &Tally) -> u64
    ensures value { result ≡ reference_of head.now.emission tally.now.sums }
    ensures top { result ≤ 600000 }
{
    let least = tally.sums.n * u64::from(head.emission);
    if 2 * tally.sums.r < least {
        least
    } else {
        tally.sums.r
    }
}
