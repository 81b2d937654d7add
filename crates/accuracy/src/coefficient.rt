// The confidence coefficient of a level's differences.
ghost use Rattle.accuracy.specs.Confidence.{ConfidenceAnswer};

use tally::Tally;

// Student's t in thousandths, for 3 to 12 runs.
const STUDENT: [u64; 10] = [4303, 3182, 2776, 2571, 2447, 2365, 2306, 2262, 2228, 2201];

// T²·W, which is the square of the confidence coefficient times 1,000,000·n²·(n − 1). Fewer than three runs have none.
pub fn confidence(tally: &Tally) -> Option<u64>
    ensures { ConfidenceAnswer tally.now.sums result }
{
    let beyond_three = tally.sums.n.checked_sub(3)?;
    // An index has no `From` of a `u64`.
    let t = STUDENT[beyond_three as usize];
    Some(t * t * tally.difference_spread())
}
