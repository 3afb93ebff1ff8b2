ghost use Rattle.std.specs.Prelude.{◌≡◌, ◌+◌, ◌≤◌, MatchOption};
ghost use Rattle.exact.specs.Fractions.{Fraction};
ghost use Rattle.exact.specs.Worked.{Gives, ends, around};
ghost use Rattle.walking.specs.Laws.{Within};
ghost use Rattle.reading.specs.Sources.{SourceRanges, density, source_specific_flow, source_flow, source_speed, through};

use super::read_across;
use curves::Column;
use exact::{Ends, Quotient};
use walking::WalkingTables;

/// A corridor in which persons stand at the start; width and length in millimetres.
#[derive(Clone, Copy, PartialEq, Eq, Debug)]
pub struct SourceCorridor {
    pub persons: u32,
    pub width: u32,
    pub length: u32,
    ghost few: { persons ≤ 8000 },
    ghost wide: { Within 500 width 10000 },
    ghost long: { Within 100 length 100000 },
}

/// What such a corridor gives: density, flows and speed in billionths.
#[derive(Clone, Copy, PartialEq, Eq, Debug)]
pub struct SourceFigures {
    pub density: Ends,
    pub specific_flow: Ends,
    pub flow: Ends,
    pub speed: Ends,
}

impl SourceCorridor {
    /// None where a number is out of range.
    pub fn new(persons: u32, width: u32, length: u32) -> Option<SourceCorridor>
        ensures { MatchOption result (SourceRanges persons width length → ⊥) (λ c. (c.persons ≡ persons) × (c.width ≡ width) × (c.length ≡ length)) }
    {
        let few = persons <= 8_000;
        let wide = (500..=10_000).contains(&width);
        let long = (100..=100_000).contains(&length);
        if !(few && wide && long) {
            return None;
        }
        Some(SourceCorridor {
            persons,
            width,
            length,
        })
    }

    pub fn density(&self) -> Ends
        ensures { result ≡ ends (density self.now.persons self.now.width self.now.length) }
    {
        Quotient {
            dividend: self.persons as u64 * 1_000_000_000_000_000,
            divisor: self.width as u64 * self.length as u64,
        }
        .rounded_both_ways()
    }

    /// Specific flow and speed from curve 1 at both ends of the density, and the flow through the width.
    pub fn figures<T: WalkingTables>(&self, tables: &T) -> SourceFigures
        ensures density { Gives 1 result.density (density self.now.persons self.now.width self.now.length) }
        ensures specific_flow { Gives 3 result.specific_flow (source_specific_flow (T.WalkingTables.meaning tables.now) self.now.persons self.now.width self.now.length) }
        ensures flow { Gives 31 result.flow (source_flow (T.WalkingTables.meaning tables.now) self.now.persons self.now.width self.now.length) }
        ensures speed { Gives 3 result.speed (source_speed (T.WalkingTables.meaning tables.now) self.now.persons self.now.width self.now.length) }
    {
        let density = self.density();
        let specific_flow = read_across(tables, Column::Flow, density);
        let speed = read_across(tables, Column::Speed, density);
        let flow = flow_through(self.width, specific_flow);
        SourceFigures {
            density,
            specific_flow,
            flow,
            speed,
        }
    }
}

/// A flow in persons per second from a specific flow in persons per metre and second.
pub fn flow_through(width: u32, specific_flow: Ends) -> Ends
    requires lower { specific_flow.lower ≤ 2000000000 }
    requires upper { specific_flow.upper ≤ 2000000000 }
    ensures { (x : Fraction) → result ≡ ends (through width (around specific_flow x)) }
{
    specific_flow.scaled(width as u64, 1000)
}
