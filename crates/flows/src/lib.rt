#![tactic(auto)]

ghost use Rattle.std.specs.Prelude.{◌≡◌, ◌<◌, ◌≤◌};
ghost use Rattle.network.specs.Lawful.{LawfulElement};
ghost use Rattle.sheet.specs.Shares.{width_out as width_leaving};

use exact::Ends;
use network::{Element, ReadyNetwork};

mod curve_numbers;
mod leaving;
mod lines;
mod points;
mod shares;
mod sources;

pub use leaving::specific_flow;
pub use points::arrivals_at;
pub use shares::width_out;

/// An element that is worked by walking tables.
#[derive(Drop)]
pub struct Passage<'a, T> {
    pub tables: &'a T,
    pub element: &'a Element,
    ghost lawful: { ∥ LawfulElement element.now ∥₁ },
}

// What passes an element: the persons, whether they queue, their flow, and the speed at which they walk.
#[derive(Clone, Copy)]
pub(crate) struct Passing {
    persons: u32,
    queue: bool,
    flow: Ends,
    speed: Ends,
    ghost few: { persons ≤ 8000 },
}

/// What comes to a point: the flows together, and the persons together.
#[derive(Clone, Copy, PartialEq, Eq, Debug)]
pub struct Arrivals {
    pub flow: Ends,
    pub persons: u32,
}

/// The persons who come to a point. The elements that leave it share them by their widths, and the width here is that
/// of all these elements together.
#[derive(Clone, Copy)]
pub struct Sharing<'a> {
    pub network: ReadyNetwork<'a>,
    pub point: u8,
    pub persons: u32,
    pub width: u32,
    ghost few: { persons ≤ 8000 },
    ghost some: { 0 < width },
    ghost all: { width ≡ width_leaving network.elements.now point },
}
