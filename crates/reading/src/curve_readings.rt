ghost use Rattle.std.specs.Prelude.{◌≡◌};
ghost use Rattle.exact.specs.Fractions.{Fraction, whole};
ghost use Rattle.exact.specs.Worked.{ends, around, rounded};
ghost use Rattle.walking.specs.Curves.{curve_of};
ghost use Rattle.curves.specs.Reading.{values, read, read_across as across, read_falling as falling};

use super::parts;
use curves::Column;
use exact::Ends;
use walking::WalkingTables;

/// A column of a curve at a quantity in billionths, rounded down and up. Past the last row the last row stands.
// The curve is a number beside the tables, as rule books are asked: an enum would leave out numbers that have an answer.
pub fn read_column<T: WalkingTables>(tables: &T, curve: u8, column: Column, quantity: u64) -> Ends
    ensures { result ≡ ends (rounded (read (values column) (curve_of (T.WalkingTables.meaning tables.now) curve) (whole quantity))) }
{
    parts::find_part(tables, curve, quantity).read(column, quantity)
}

/// A column of curve 1 between two ends of the density: the smaller reading rounded down, the greater rounded up.
/// Curve 1 may rise and fall, so neither end of the density gives the smaller one by itself.
pub fn read_across<T: WalkingTables>(tables: &T, column: Column, density: Ends) -> Ends
    ensures { (x : Fraction) → result ≡ ends (across (values column) (T.WalkingTables.meaning tables.now).density (around density x)) }
{
    // the curve by density, by its number, as rule books are asked
    let at_lower = read_column(tables, 1, column, density.lower);
    let at_upper = read_column(tables, 1, column, density.upper);
    Ends {
        lower: at_lower.lower.min(at_upper.lower),
        upper: at_lower.upper.max(at_upper.upper),
    }
}

/// The speed of curve 2, 3 or 4 between two ends of the specific flow, its lower end at the upper one.
// The curve by its number, as in `read_column`.
pub fn read_falling<T: WalkingTables>(tables: &T, curve: u8, specific_flow: Ends) -> Ends
    ensures { (x : Fraction) → result ≡ ends (falling (curve_of (T.WalkingTables.meaning tables.now) curve) (around specific_flow x)) }
{
    specific_flow.falling(|quantity| read_column(tables, curve, Column::Speed, quantity))
}
