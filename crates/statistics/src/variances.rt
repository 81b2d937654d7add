// The F test: whether the predictions of a level vary no more than the references.
ghost use Rattle.std.specs.Prelude.{◌≡◌, ◌-◌, ◌*◌, ◌≤◌, true, ◌||◌, ◌↔◌, nat_le};
ghost use Rattle.statistics.specs.Variance.{floor_of, is_steady};
ghost use Rattle.statistics.specs.Words.{Steady};

use tally::Tally;
use terms::{Head, Kind};

// Critical F in thousandths, for 9 to 12 runs.
const CRITICAL: [u64; 4] = [3438, 3197, 2978, 2817];

// Whether the variance of the predictions is at most the critical F times that of the references, or times the square of
// the floor. Fewer than nine runs do not pass. Head and tally come apart: a layer keeps its head, and each question brings its tally.
pub fn is_steady(head: &Head, tally: &Tally) -> bool
    ensures value { result ≡ is_steady head.now.kind head.now.span tally.now.sums }
    ensures words { (result ≡ true) ↔ Steady head.now.kind head.now.span tally.now.sums }
{
    let n = tally.sums.n;
    let Some(beyond_nine) = n.checked_sub(9) else {
        return false;
    };
    // An index has no `From` of a `u64`.
    let f = CRITICAL[beyond_nine as usize];
    let x = tally.reference_spread();
    let y = tally.predicted_spread();
    passes(n, x, y, f, floor(head))
}

// The F test of n runs with the spreads x and y of their references and predictions, by the critical value f and the floor g.
fn passes(n: u64, x: u64, y: u64, f: u64, g: u64) -> bool
    requires n { (1 ≤ n) × (n ≤ 12) }
    requires x { x ≤ 360000000000 }
    requires y { y ≤ 360000000000 }
    requires f { f ≤ 3438 }
    requires g { g ≤ 150000 }
    ensures { result ≡ (nat_le (1000 * y) (f * x) || nat_le (10000000 * y) (f * (n * (n - 1)) * (g * g))) }
{
    1000 * y <= f * x || 10_000_000 * y <= f * (n * (n - 1)) * (g * g)
}

// The least deviation of the references that counts, in hundredths of a unit.
fn floor(head: &Head) -> u64
    ensures value { result ≡ floor_of head.now.kind head.now.span }
    ensures top { result ≤ 150000 }
{
    let g = 3 * u64::from(head.span);
    match head.kind {
        Kind::Ppm => g.min(5000),
        Kind::Heat | Kind::Diluent => g,
    }
}
