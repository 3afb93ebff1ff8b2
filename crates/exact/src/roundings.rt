ghost use Rattle.std.specs.Prelude.{◌≡◌, ◌+◌, ◌≤◌};
ghost use Rattle.exact.specs.Fractions.{floor, ceiling};
ghost use Rattle.exact.specs.Quotients.{fraction};
ghost use Rattle.exact.specs.Worked.{ends, rounded};

use super::*;

impl Quotient {
    pub fn rounded_down(self) -> u64
        ensures { result ≡ floor (fraction self) }
    {
        self.dividend / self.divisor
    }

    // 1 where the division leaves a remainder: what rounding up adds, so that no sum can pass 64 bits.
    fn leftover(self) -> u64
        ensures value { floor (fraction self) + result ≡ ceiling (fraction self) }
        ensures small { floor (fraction self) + result ≤ self.dividend }
    {
        u64::from(self.dividend % self.divisor > 0)
    }

    pub fn rounded_up(self) -> u64
        ensures { result ≡ ceiling (fraction self) }
    {
        self.rounded_down() + self.leftover()
    }

    pub fn rounded_both_ways(self) -> Ends
        ensures { result ≡ ends (rounded (fraction self)) }
    {
        Ends {
            lower: self.rounded_down(),
            upper: self.rounded_up(),
        }
    }
}
