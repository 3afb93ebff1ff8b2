#![tactic(auto)]

use network::ReadyNetwork;

mod stages;
mod thin_flows;

pub use thin_flows::{clear_lines, first_thin};

/// A network that is ready, and the walking tables by which its worksheet is filled.
// Without the sheet, whose room stays a clause: it is lent by a call, and its caller reads what was written.
#[derive(Drop)]
pub struct Filling<'t, 'n, T> {
    pub tables: &'t T,
    pub network: ReadyNetwork<'n>,
}
