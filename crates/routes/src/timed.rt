ghost use Rattle.std.specs.Prelude.{◌≡◌, length};
ghost use Rattle.ways.specs.Walks.{net_of, Walkable};

use network::Element;
use sheet::Line;
use ways::End;

/// A network as it is walked: its elements, the line of each, and which end of their times is added up.
#[derive(Clone, Copy)]
pub struct TimedNetwork<'a> {
    // two slices of one length and no slice of pairs: the caller lends the lines, the study the elements
    pub elements: &'a [Element],
    pub lines: &'a [Line],
    pub end: End,
    ghost sized: { length elements.now ≡ length lines.now },
    ghost walkable: { ∥ Walkable (net_of end elements.now lines.now) ∥₁ },
}
