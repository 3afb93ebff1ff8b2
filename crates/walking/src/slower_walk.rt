ghost use Rattle.std.specs.Prelude.{◌≡◌, ◌≤◌};
ghost use Rattle.walking.specs.Curves.{speed};
ghost use Rattle.walking.specs.Slower.{slower, slowed, slow_row as slowed_row};
ghost use Rattle.walking.specs.Slowed.{slower_lawful};
ghost use Rattle.std.proofs.Common.{rules};

use super::{Row, RuleBook, WalkingTables};

/// A rule book with each speed taken times a per mille, rounded down and lifted to at least 100; the rest is that of
/// the rule book below. A per mille above 1,000 counts as 1,000.
#[derive(Clone, Copy, Debug, Drop, PartialEq, Eq)]
pub struct SlowerWalk<B> {
    pub below: B,
    pub per_mille: u32,
}

fn slow_down(full: u32, per_mille: u32) -> u32
    requires { full ≤ 2000 }
    ensures { result ≡ slowed per_mille full }
{
    (full * per_mille.min(1000) / 1000).max(100)
}

fn slow_row(row: Row, per_mille: u32) -> Row
    requires { speed row ≤ 2000 }
    ensures { result ≡ slowed_row per_mille row }
{
    (row.0, row.1, slow_down(row.2, per_mille))
}

impl<B: WalkingTables> WalkingTables for SlowerWalk<B> {
    ghost meaning = { λ s. slower s.per_mille (B.WalkingTables.meaning s.below) };

    ghost lawful = { λ x. slower_lawful x.per_mille (B.WalkingTables.meaning x.below) (B.WalkingTables.lawful x.below) };

    fn rows(&self, curve: u8) -> usize {
        self.below.rows(curve)
    }

    fn row(&self, curve: u8, i: usize) -> Row {
        slow_row(self.below.row(curve, i), self.per_mille)
    }

    fn door_flow(&self) -> u32 {
        self.below.door_flow()
    }
}

impl<B: RuleBook> RuleBook for SlowerWalk<B> {
    ghost rules = { λ s. B.RuleBook.rules s.below };

    ghost ranges = { Prim.search rules };

    fn response(&self, case_number: u8) -> u32 {
        self.below.response(case_number)
    }

    fn factor(&self, case_number: u8) -> u32 {
        self.below.factor(case_number)
    }

    fn limit(&self, ship_kind: u8, zones: u8) -> u32 {
        self.below.limit(ship_kind, zones)
    }
}
