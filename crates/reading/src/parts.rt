ghost use Rattle.std.specs.Prelude.{◌≡◌, ◌+◌, ◌*◌, ◌<◌, ◌≤◌};
ghost use Rattle.exact.specs.Fractions.{whole};
ghost use Rattle.exact.specs.Worked.{ends, rounded};
ghost use Rattle.walking.specs.Curves.{curve_of};
ghost use Rattle.curves.specs.Reading.{values};
ghost use Rattle.reading.specs.Parts.{Found, FitsPart, read_part};

use curves::Column;
use exact::{Ends, Quotient};
use walking::{Row, WalkingTables};

// The rows that a quantity lies between, or the last row if it is past that.
#[derive(Clone, Copy, PartialEq, Eq, Debug)]
pub(crate) enum Part {
    Between(Row, Row),
    Past(Row),
}

// The curve by its number, as in `read_column`.
pub(crate) fn find_part<T: WalkingTables>(tables: &T, curve: u8, quantity: u64) -> Part
    ensures { Found (curve_of (T.WalkingTables.meaning tables.now) curve) quantity result }
{
    let mut before = tables.row(curve, 0);
    // over row numbers: a rule book answers one row at a time, and has no slice to go over
    for i in 1..tables.rows(curve) {
        let row = tables.row(curve, i);
        if quantity <= row.0 as u64 * 1_000_000 {
            return Part::Between(before, row);
        }
        before = row;
    }
    Part::Past(before)
}

fn weigh(value: u32, weight: u64) -> u64
    requires value { value ≤ 2000 }
    requires weight { weight ≤ 10000000000 }
    ensures value { result ≡ value * weight }
    ensures small { result ≤ 20000000000000 }
{
    value as u64 * weight
}

// The mean of two values, weighted by what is left to the next row and by what is passed since the row before.
fn weighted_mean(before: u32, after: u32, left: u64, passed: u64, step: u64) -> Ends
    requires before { before ≤ 2000 }
    requires after { after ≤ 2000 }
    requires left { left ≤ 10000000000 }
    requires passed { passed ≤ 10000000000 }
    requires step { 0 < step }
    ensures { result ≡ ends (rounded (record { num = before * left + after * passed; den = step })) }
{
    let sum = weigh(before, left) + weigh(after, passed);
    Quotient {
        dividend: sum,
        divisor: step,
    }
    .rounded_both_ways()
}

fn value(row: Row, column: Column) -> u32
    ensures { result ≡ values column row }
{
    match column {
        Column::Flow => row.1,
        Column::Speed => row.2,
    }
}

impl Part {
    // A column at a quantity that lies in this part.
    pub(crate) fn read(self, column: Column, quantity: u64) -> Ends
        requires { FitsPart self quantity }
        ensures { result ≡ ends (rounded (read_part (values column) self (whole quantity))) }
    {
        match self {
            Part::Between(before, after) => weighted_mean(
                value(before, column),
                value(after, column),
                after.0 as u64 * 1_000_000 - quantity,
                quantity - before.0 as u64 * 1_000_000,
                (after.0 - before.0) as u64,
            ),
            Part::Past(last) => Ends::exactly(value(last, column) as u64 * 1_000_000),
        }
    }
}
