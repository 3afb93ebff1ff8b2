ghost use Rattle.std.specs.Prelude.{◌≡◌, ◌-◌, ◌≤◌, ◌++◌, length, drop, if◌then◌else◌, nat_eq};
ghost use Rattle.exact.specs.Fractions.{Fraction};
ghost use Rattle.exact.specs.Worked.{around};
ghost use Rattle.sheet.specs.Lines.{idle, shown};
ghost use Rattle.sheet.specs.Sources.{source};
ghost use Rattle.sheet.specs.Sheet.{worked, lines};
ghost use Rattle.worksheet.specs.Stages.{Holds, laid, departed, held};

use super::Filling;
use exact::Ends;
use flows::{Passage, Sharing, arrivals_at, specific_flow, width_out};
use sheet::Line;
use walking::WalkingTables;

// The line of an element before any point is worked: only a source has one.
fn first_line<T: WalkingTables>(passage: &Passage<'_, T>) -> Line
    ensures { result ≡ shown passage.now.element.now (if nat_eq passage.now.element.now.from 0 then source (T.WalkingTables.meaning passage.now.tables.now) passage.now.element.now else idle) }
{
    if passage.element.from == 0 {
        passage.source_line()
    } else {
        Line::default()
    }
}

// The lines of all elements that leave a point, where the specific flow in is given.
fn write_departures<T: WalkingTables>(
    tables: &T,
    sharing: Sharing<'_>,
    specific_flow: Ends,
    sheet: &mut [Line],
)
    requires { length sharing.network.elements.now ≤ length sheet.old }
    ensures { (x : Fraction) → sheet.new ≡ laid (departed (T.WalkingTables.meaning tables.now) sharing.entry.network.elements.now sharing.entry.point (around specific_flow x) sharing.entry.persons sheet.old) (length sharing.entry.network.elements.now) sheet.old }
{
    let left_over = sharing.left_over();
    // by index: of what a zip with iter_mut writes, a proof learns nothing
    for (i, element) in sharing.network.elements.iter().enumerate() {
        if element.from == sharing.point {
            let persons = sharing.share(left_over, i);
            let passage = Passage { tables, element };
            sheet[i] = passage.leaving_line(specific_flow, persons);
        }
    }
}

impl<T: WalkingTables> Filling<'_, '_, T> {
    // One point more: what comes to it is shared by what leaves it.
    fn work_point(&self, point: u8, sheet: &mut [Line])
        requires first { 1 ≤ point }
        requires last { point ≤ 64 }
        requires before { Holds self.now.network.elements.now (worked (T.WalkingTables.meaning self.now.tables.now) self.now.network.elements.now (point - 1)) sheet.old }
        ensures { sheet.new ≡ held self.now.network.elements.now (worked (T.WalkingTables.meaning self.now.tables.now) self.now.network.elements.now point) sheet.old }
    {
        let width = width_out(self.network, point);
        if width == 0 {
            return;
        }
        let arrivals = arrivals_at(self.network.elements, sheet, point);
        let specific_flow = specific_flow(arrivals.flow, width);
        let sharing = Sharing {
            network: self.network,
            point,
            persons: arrivals.persons,
            width,
        };
        write_departures(self.tables, sharing, specific_flow, sheet);
    }

    // Point after point in rising order, where the sheet holds the sources' lines.
    fn work_points(&self, sheet: &mut [Line])
        requires { Holds self.now.network.elements.now (worked (T.WalkingTables.meaning self.now.tables.now) self.now.network.elements.now 0) sheet.old }
        ensures { sheet.new ≡ held self.now.network.elements.now (worked (T.WalkingTables.meaning self.now.tables.now) self.now.network.elements.now 64) sheet.old }
    {
        for point in 1..=64u8 {
            self.work_point(point, sheet);
        }
    }

    /// The worksheet: the sources' lines, then point after point. Lines beyond the elements are not touched.
    pub fn fill(&self, sheet: &mut [Line])
        requires { length self.now.network.elements.now ≤ length sheet.old }
        ensures { sheet.new ≡ lines (T.WalkingTables.meaning self.now.tables.now) self.now.network.elements.now ++ drop (length self.now.network.elements.now) sheet.old }
    {
        // by index: of what a zip with iter_mut writes, a proof learns nothing
        for (i, element) in self.network.elements.iter().enumerate() {
            let passage = Passage {
                tables: self.tables,
                element,
            };
            sheet[i] = first_line(&passage);
        }
        self.work_points(sheet);
    }
}
