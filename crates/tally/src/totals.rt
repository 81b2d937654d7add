// The sums over the pairs of a level, and over those of three levels.
ghost use Rattle.std.specs.Prelude.{◌≤◌};
ghost use Rattle.tally.specs.Sums.{Spreads, TallyOf, Tops};

use crate::sums::Sums;

mod joining;
mod numbers;
mod taking;

// Of the pairs of one level.
pub type Tally = Totals<12>;

// Of the pairs of three levels: three tallies together, and nothing else.
pub type Joined = Totals<36>;

// The sums of a list of at most so many pairs with no reading over 50,000. That there is such a list is kept in the type, and
// with it what later sums and products rest on: bounds, and that no spread is negative.
#[derive(Clone, Copy)]
pub struct Totals<const MOST: usize> {
    pub sums: Sums,
    ghost few: { MOST ≤ 36 },
    ghost real: { TallyOf MOST sums },
    ghost tops: { Tops MOST sums },
    ghost spreads: { Spreads sums },
}
