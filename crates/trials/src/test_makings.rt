// What the tests are made with: heads, pairs and tallies.
use std::test::Fail;
use tally::Tally;
use terms::{Head, Kind, Pair, Use};

// A head in ppm that most tests take.
pub(crate) fn ppm(usage: Use) -> Result<Head, Fail> {
    Ok(Head::new(Kind::Ppm, usage, 2000, 5000)?)
}

// So many times the same pair, one after the other.
pub(crate) fn tally(runs: &[(u32, u32, u32)]) -> Result<Tally, Fail> {
    let mut tally = Tally::none();
    for (n, reference, predicted) in runs {
        for _ in 0..*n {
            tally.add(&Pair::new(*reference, *predicted))?;
        }
    }
    Ok(tally)
}
