#![tactic(auto)]

use exact::Ends;

mod laws;

pub use laws::worksheets_keep_their_laws;

/// What the worksheet says of an element: the persons who pass it, whether they queue, and both ends of its flow and
/// speed in billionths, and of its flow duration and travel in microseconds. A door's speed is 0.
// A door's speed is 0 and no Option: by the rules a worksheet shows it so.
#[derive(Clone, Copy, PartialEq, Eq, Debug, Default)]
pub struct Line {
    pub persons: u32,
    pub queue: bool,
    pub flow: Ends,
    pub speed: Ends,
    pub flow_duration: Ends,
    pub travel: Ends,
}
