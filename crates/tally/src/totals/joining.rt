// Three tallies together, given as a standard is given them. They are added field by field: a sum of any two `Sums` would have to
// ask that they fit.
ghost use Rattle.std.specs.Prelude.{◌≡◌};
ghost use Rattle.tally.specs.Sums.{plus};

use super::{Joined, Tally};
use crate::sums::Sums;

impl Joined {
    pub fn of(low: &Tally, mid: &Tally, high: &Tally) -> Joined
        ensures { result.sums ≡ plus (plus low.now.sums mid.now.sums) high.now.sums }
    {
        let (a, b, c) = (&low.sums, &mid.sums, &high.sums);
        Joined {
            sums: Sums {
                n: a.n + b.n + c.n,
                r: a.r + b.r + c.r,
                p: a.p + b.p + c.p,
                rr: a.rr + b.rr + c.rr,
                pp: a.pp + b.pp + c.pp,
                rp: a.rp + b.rp + c.rp,
            },
        }
    }
}
