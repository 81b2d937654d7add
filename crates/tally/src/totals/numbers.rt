// The numbers that the rules are written in.
ghost use Rattle.std.specs.Prelude.{◌≡◌, ◌+◌, ◌*◌, ◌≤◌, pos, unsigned_abs};
ghost use Rattle.tally.specs.Numbers.{D, DifferenceSpread, W, X, Y};
ghost use Rattle.tally.specs.Tallying.{SharedAnswer};

use super::Totals;

impl<const MOST: usize> Totals<MOST> {
    // |D|: how far apart the references and the predictions are in sum.
    pub fn distance(&self) -> u64
        ensures value { result ≡ unsigned_abs (D self.now.sums) }
        ensures top { result ≤ MOST * 50000 }
    {
        self.sums.r.abs_diff(self.sums.p)
    }

    // W: n times the sum of the squared differences, less the square of their sum.
    pub fn difference_spread(&self) -> u64
        ensures value { W self.now.sums ≡ pos result }
        ensures top { result ≤ MOST * (MOST * 5000000000) }
        ensures differences { DifferenceSpread self.now.sums result }
    {
        let sums = &self.sums;
        let distance = sums.r.abs_diff(sums.p);
        spread(sums.n, sums.rr + sums.pp - 2 * sums.rp, distance)
    }

    // X: the same of the references.
    pub fn reference_spread(&self) -> u64
        ensures value { X self.now.sums ≡ pos result }
        ensures top { result ≤ MOST * (MOST * 2500000000) }
    {
        spread(self.sums.n, self.sums.rr, self.sums.r)
    }

    // Y: the same of the predictions.
    pub fn predicted_spread(&self) -> u64
        ensures value { Y self.now.sums ≡ pos result }
        ensures top { result ≤ MOST * (MOST * 2500000000) }
    {
        spread(self.sums.n, self.sums.pp, self.sums.p)
    }

    // Z, where it is above 0: n times the sum of the products, less the product of the sums.
    pub fn shared_spread(&self) -> Option<u64>
        ensures { SharedAnswer self.now.sums result }
    {
        let products = self.sums.n * self.sums.rp;
        let z = products.checked_sub(self.sums.r * self.sums.p)?;
        (z > 0).then_some(z)
    }
}

// The count times a sum of squares, less the square of the sum.
fn spread(n: u64, squares: u64, sum: u64) -> u64
    requires n { n ≤ 36 }
    requires squares { squares ≤ 180000000000 }
    requires sum { sum * sum ≤ n * squares }
    ensures { result + sum * sum ≡ n * squares }
{
    n * squares - sum * sum
}
