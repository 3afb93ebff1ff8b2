ghost use Rattle.std.specs.Prelude.{◌≡◌, ℕ, ◌*◌, ◌^◌, ◌<◌};
ghost use Rattle.exact.specs.Fractions.{Fraction, scaled, whole};
ghost use Rattle.exact.specs.Worked.{ends, around, exactly, rounded, rising, falling, Computes};

use super::*;

impl Ends {
    /// A whole number, which needs no rounding.
    pub fn exactly(value: u64) -> Ends
        ensures { result ≡ ends (exactly value) }
    {
        Ends {
            lower: value,
            upper: value,
        }
    }

    /// What a formula that never falls makes of both ends.
    pub fn rising<F: Fn(u64) -> Ends>(self, formula: F) -> Ends
        requires lower { F.pre formula self.lower }
        requires upper { F.pre formula self.upper }
        ensures { (f : Fraction → Fraction) → Computes (F.post formula) f → (x : Fraction) → result ≡ ends (rising f (around self x)) }
    {
        Ends {
            lower: formula(self.lower).lower,
            upper: formula(self.upper).upper,
        }
    }

    /// What a formula that never rises makes of both ends: the lower end comes from the upper one.
    pub fn falling<F: Fn(u64) -> Ends>(self, formula: F) -> Ends
        requires lower { F.pre formula self.lower }
        requires upper { F.pre formula self.upper }
        ensures { (f : Fraction → Fraction) → Computes (F.post formula) f → (x : Fraction) → result ≡ ends (falling f (around self x)) }
    {
        let crossed = Ends {
            lower: self.upper,
            upper: self.lower,
        };
        crossed.rising(formula)
    }

    /// The ends times a factor, over a divisor.
    pub fn scaled(self, factor: u64, divisor: u64) -> Ends
        requires lower { self.lower * factor < 2 ^ 64 }
        requires upper { self.upper * factor < 2 ^ 64 }
        requires some { 0 < divisor }
        ensures { (x : Fraction) → result ≡ ends (rising (scaled factor divisor) (around self x)) }
    {
        self.rising(
            |end|
                requires fits { end * factor < 2 ^ 64 }
                requires some { 0 < divisor }
                ensures { result ≡ ends (rounded (scaled factor divisor (whole end))) }
            {
                Quotient {
                    dividend: end * factor,
                    divisor,
                }
                .rounded_both_ways()
            },
        )
    }
}
