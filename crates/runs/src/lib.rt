// The closed runs of one level.
#![tactic(auto)]

ghost use Rattle.std.specs.Prelude.{◌≡◌, ◌≤◌, length, take};
ghost use Rattle.terms.specs.Readings.{highest};

use terms::{Levels, Pair};

mod keeping;

// A set of struck positions at each level: position k, from 1, counts 2^(k − 1) in its set.
pub type Selection = Levels<u32>;

// At most twelve runs, in closing order, with no reading over 50,000, which is the top of any kind.
// What lies beyond the first `count` pairs means nothing. The type is `Copy`, which it would not be with an `ArrayVec`.
// It has no model, for the reason that a log has none.
#[derive(Clone, Copy)]
pub struct ClosedRuns {
    runs: [Pair; 12],
    count: usize,
    ghost room: { length runs ≡ 12 },
    ghost few: { count ≤ 12 },
    ghost within: { highest (take count runs) ≤ 50000 },
}
