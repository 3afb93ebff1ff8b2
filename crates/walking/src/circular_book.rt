ghost use Rattle.std.specs.Prelude.{◌≡◌};
ghost use Rattle.walking.specs.Curves.{curve_of};
ghost use Rattle.walking.specs.Circular.{circular, circular_rules};
ghost use Rattle.std.proofs.Common.{rules};

use super::{Row, RuleBook, WalkingTables};

const DENSITY: [Row; 5] = [
    (0, 0, 1200),
    (500, 650, 1200),
    (1900, 1300, 670),
    (3200, 650, 200),
    (3500, 320, 100),
];

const CORRIDOR: [Row; 3] = [(0, 0, 1200), (650, 650, 1200), (1300, 1300, 670)];

const STAIR_DOWN: [Row; 3] = [(0, 0, 1000), (540, 540, 1000), (1100, 1100, 550)];

const STAIR_UP: [Row; 3] = [(0, 0, 800), (430, 430, 800), (880, 880, 440)];

// The rows of curve 1 to 4; any other number counts as the nearest.
fn curve_rows(curve: u8) -> &'static [Row]
    ensures { result.now ≡ curve_of circular curve }
{
    match curve {
        0 | 1 => &DENSITY,
        2 => &CORRIDOR,
        3 => &STAIR_DOWN,
        _ => &STAIR_UP,
    }
}

/// The circular's own tables and rules.
#[derive(Clone, Copy, Debug, PartialEq, Eq)]
pub struct Circular;

impl WalkingTables for Circular {
    ghost meaning = { λ _. circular };

    ghost lawful = { Prim.search rules };

    fn rows(&self, curve: u8) -> usize {
        curve_rows(curve).len()
    }

    fn row(&self, curve: u8, i: usize) -> Row {
        let rows = curve_rows(curve);
        match rows.get(i) {
            Some(row) => *row,
            None => rows[rows.len() - 1],
        }
    }

    fn door_flow(&self) -> u32 {
        1300
    }
}

impl RuleBook for Circular {
    ghost rules = { λ _. circular_rules };

    ghost ranges = { Prim.search rules };

    // cases 1 and 3 are by night
    fn response(&self, case_number: u8) -> u32 {
        match case_number {
            0 | 1 | 3 => 600,
            _ => 300,
        }
    }

    fn factor(&self, case_number: u8) -> u32 {
        if case_number <= 2 { 23 } else { 16 }
    }

    // ship kind 1 is ro-ro, 2 any other
    fn limit(&self, ship_kind: u8, zones: u8) -> u32 {
        if ship_kind >= 2 && zones > 3 { 80 } else { 60 }
    }
}
