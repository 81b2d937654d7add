// Two fractions are held against each other by their whole parts. Where these are equal, the remainders decide, turned over:
// of two fractions the greater has the smaller one turned over, so the question changes sides. The two questions are functions
// of their own, and no order on a type, since each is answered by the other with smaller denominators.
ghost use Rattle.std.specs.Prelude.{◌≡◌, ◌+◌, ◌*◌, ◌<◌};
ghost use Rattle.fractions.specs.Order.{is_at_least, is_at_most};

use crate::Fraction;

impl Fraction {
    // Whether this fraction is not less than another.
    #[cycle(not_greater_not_less)]
    pub fn not_less(self, other: Fraction) -> bool
        ensures { result ≡ is_at_least self other }
    {
        let (whole, rest) = self.parts();
        let (other_whole, other_rest) = other.parts();
        if whole != other_whole {
            return whole > other_whole;
        }
        if rest == 0 || other_rest == 0 {
            return other_rest == 0;
        }
        let turned = Fraction {
            top: self.bottom,
            bottom: rest,
        };
        let other_turned = Fraction {
            top: other.bottom,
            bottom: other_rest,
        };
        turned.not_greater(other_turned)
    }

    // Whether this fraction is not greater than another.
    #[cycle(not_greater_not_less)]
    pub fn not_greater(self, other: Fraction) -> bool
        ensures { result ≡ is_at_most self other }
    {
        let (whole, rest) = self.parts();
        let (other_whole, other_rest) = other.parts();
        if whole != other_whole {
            return whole < other_whole;
        }
        if rest == 0 || other_rest == 0 {
            return rest == 0;
        }
        let turned = Fraction {
            top: self.bottom,
            bottom: rest,
        };
        let other_turned = Fraction {
            top: other.bottom,
            bottom: other_rest,
        };
        turned.not_less(other_turned)
    }

    // The whole part and the remainder. A division is dear, and most fractions that are compared are below 1.
    fn parts(self) -> (u64, u64)
        ensures { (self.top ≡ self.bottom * result.0 + result.1) × (result.1 < self.bottom) }
    {
        if self.top < self.bottom {
            (0, self.top)
        } else {
            (self.top / self.bottom, self.top % self.bottom)
        }
    }
}
