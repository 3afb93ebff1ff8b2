#![tactic(auto)]

ghost use Rattle.curves.specs.Laws.{DensityReadsAmid, AcrossEncloses, SpeedFalls, SpeedFallsSlowly, FallingEncloses, SpeedsInRange, ColumnsInRange};

/// A column of a curve that is read at its entries.
// An enum and no closure: the contract of a reading says which column is read, and a closure could be any function.
#[derive(Clone, Copy, PartialEq, Eq, Debug)]
pub enum Column {
    Flow,
    Speed,
}

/// The laws of reading that hold under every lawful walking tables; it computes nothing.
pub fn readings_keep_their_laws()
    ensures amid { DensityReadsAmid }
    ensures across { AcrossEncloses }
    ensures falls { SpeedFalls }
    ensures slowly { SpeedFallsSlowly }
    ensures encloses { FallingEncloses }
    ensures speeds { SpeedsInRange }
    ensures columns { ColumnsInRange }
{}
