ghost use Rattle.std.specs.Prelude.{◌≡◌, ◌*◌, ◌<◌, ◌≤◌};
ghost use Rattle.exact.specs.Fractions.{Fraction, scaled};
ghost use Rattle.exact.specs.Worked.{ends, around, rising};
ghost use Rattle.walking.specs.Curves.{curve_of};
ghost use Rattle.curves.specs.Reading.{mega};
ghost use Rattle.sheet.specs.Lines.{shown};
ghost use Rattle.sheet.specs.Points.{last_entry, most, speed_at, cut, leaving};

use super::curve_numbers::{billionths, walking_curve};
use super::{Passage, Passing};
use exact::Ends;
use network::Kind;
use reading::{flow_through, read_falling};
use sheet::Line;
use walking::WalkingTables;

/// The specific flow in: flows that come to a point over the width of all that leaves it, in millimetres.
pub fn specific_flow(flow: Ends, width: u32) -> Ends
    requires lower { flow.lower ≤ 2560000000000 }
    requires upper { flow.upper ≤ 2560000000000 }
    requires some { 0 < width }
    ensures { (x : Fraction) → result ≡ ends (rising (scaled 1000 width) (around flow x)) }
{
    flow.scaled(1000, width as u64)
}

// What is taken of a specific flow. The lesser number at each end: a formula passed to `rising` is no plainer.
fn cut_to(greatest: u64, specific_flow: Ends) -> Ends
    ensures value { (x : Fraction) → result ≡ ends (cut greatest (around specific_flow x)) }
    ensures lower { result.lower ≤ greatest }
    ensures upper { result.upper ≤ greatest }
{
    Ends {
        lower: specific_flow.lower.min(greatest),
        upper: specific_flow.upper.min(greatest),
    }
}

// The last entry of a curve, in billionths.
fn last_entry<T: WalkingTables>(tables: &T, curve: u8) -> u64
    ensures { result ≡ last_entry (curve_of (T.WalkingTables.meaning tables.now) curve) * mega }
{
    let last = tables.rows(curve) - 1;
    billionths(tables.row(curve, last).0)
}

// The greatest specific flow that an element of a kind takes.
fn greatest_flow<T: WalkingTables>(tables: &T, kind: Kind) -> u64
    ensures { result ≡ most (T.WalkingTables.meaning tables.now) kind }
{
    match walking_curve(kind) {
        Some(curve) => last_entry(tables, curve),
        None => billionths(tables.door_flow()),
    }
}

// The speed at a specific flow; a door has none.
fn speed_of<T: WalkingTables>(tables: &T, kind: Kind, specific_flow: Ends) -> Ends
    ensures { (x : Fraction) → result ≡ ends (speed_at (T.WalkingTables.meaning tables.now) kind (around specific_flow x)) }
{
    match walking_curve(kind) {
        Some(curve) => read_falling(tables, curve, specific_flow),
        None => Ends::default(),
    }
}

impl<T: WalkingTables> Passage<'_, T> {
    /// The line of the element where so many persons leave a point by it, and the specific flow in is given. It is cut
    /// to the greatest that the element takes, which means a queue.
    pub fn leaving_line(&self, specific_flow: Ends, persons: u32) -> Line
        requires few { persons ≤ 8000 }
        ensures { (x : Fraction) → result ≡ shown self.now.element.now (leaving (T.WalkingTables.meaning self.now.tables.now) self.now.element.now (around specific_flow x) persons) }
    {
        let greatest = greatest_flow(self.tables, self.element.kind);
        let taken = cut_to(greatest, specific_flow);
        let passing = Passing {
            persons,
            queue: specific_flow.upper > greatest,
            flow: flow_through(self.element.width, taken),
            speed: speed_of(self.tables, self.element.kind, taken),
        };
        passing.line(self.element)
    }
}
