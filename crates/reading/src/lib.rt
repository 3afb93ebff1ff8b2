#![tactic(auto)]

mod curve_readings;
mod parts;
mod sources;

pub use curve_readings::{read_across, read_column, read_falling};
pub use sources::{SourceCorridor, SourceFigures, flow_through};
