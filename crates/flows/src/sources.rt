ghost use Rattle.std.specs.Prelude.{◌≡◌};
ghost use Rattle.exact.specs.Worked.{ends};
ghost use Rattle.walking.specs.Curves.{curve_of};
ghost use Rattle.network.specs.declared.Kind.TheVariants.{Corridor, Door};
ghost use Rattle.sheet.specs.Lines.{shown};
ghost use Rattle.sheet.specs.Sources.{row_speed as speed_of_row, first_speed as speed_at_start, empty_source as empty_line, full_source as full_line, source};

use super::curve_numbers::{billionths, starting_curve};
use super::{Passage, Passing};
use exact::Ends;
use network::Kind;
use reading::{SourceCorridor, flow_through};
use sheet::Line;
use walking::WalkingTables;

// The speed of row 0 of a curve.
fn row_speed<T: WalkingTables>(tables: &T, curve: u8) -> Ends
    ensures { result ≡ ends (speed_of_row (curve_of (T.WalkingTables.meaning tables.now) curve)) }
{
    Ends::exactly(billionths(tables.row(curve, 0).2))
}

// The speed of a source without persons.
fn first_speed<T: WalkingTables>(tables: &T, kind: Kind) -> Ends
    ensures { result ≡ ends (speed_at_start (T.WalkingTables.meaning tables.now) kind) }
{
    match starting_curve(kind) {
        Some(curve) => row_speed(tables, curve),
        None => Ends::default(),
    }
}

impl<T: WalkingTables> Passage<'_, T> {
    // A source where nobody starts.
    fn empty_source(&self) -> Line
        ensures { result ≡ shown self.now.element.now (empty_line (T.WalkingTables.meaning self.now.tables.now) self.now.element.now) }
    {
        let passing = Passing {
            persons: 0,
            queue: false,
            flow: Ends::default(),
            speed: first_speed(self.tables, self.element.kind),
        };
        passing.line(self.element)
    }

    // Persons who stand in a corridor: flow and speed are those of their density.
    fn full_corridor(&self) -> Line
        requires { self.now.element.now.kind ≡ Corridor }
        ensures { result ≡ shown self.now.element.now (full_line (T.WalkingTables.meaning self.now.tables.now) Corridor self.now.element.now) }
    {
        let corridor = SourceCorridor {
            persons: self.element.persons,
            width: self.element.width,
            length: self.element.length,
        };
        let figures = corridor.figures(self.tables);
        let passing = Passing {
            persons: self.element.persons,
            queue: false,
            flow: figures.flow,
            speed: figures.speed,
        };
        passing.line(self.element)
    }

    // Persons behind a door: they pass it at the door flow.
    fn full_door(&self) -> Line
        ensures { result ≡ shown self.now.element.now (full_line (T.WalkingTables.meaning self.now.tables.now) Door self.now.element.now) }
    {
        let specific_flow = Ends::exactly(billionths(self.tables.door_flow()));
        let passing = Passing {
            persons: self.element.persons,
            queue: false,
            flow: flow_through(self.element.width, specific_flow),
            speed: Ends::default(),
        };
        passing.line(self.element)
    }

    // A source with persons, by its kind; in a stair nobody starts.
    fn full_source(&self) -> Line
        ensures { result ≡ shown self.now.element.now (full_line (T.WalkingTables.meaning self.now.tables.now) self.now.element.now.kind self.now.element.now) }
    {
        match self.element.kind {
            Kind::Corridor => self.full_corridor(),
            Kind::Door => self.full_door(),
            Kind::StairDown | Kind::StairUp => self.empty_source(),
        }
    }

    /// The line of a source.
    pub fn source_line(&self) -> Line
        ensures { result ≡ shown self.now.element.now (source (T.WalkingTables.meaning self.now.tables.now) self.now.element.now) }
    {
        if self.element.persons == 0 {
            self.empty_source()
        } else {
            self.full_source()
        }
    }
}
