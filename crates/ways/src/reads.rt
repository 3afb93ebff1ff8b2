ghost use Rattle.std.specs.Prelude.{◌≡◌, ◌≤◌};
ghost use Rattle.ways.specs.Ends.{end_of};
ghost use Rattle.ways.specs.Walks.{near_point, far_point, point_at};

use super::*;
use exact::Ends;
use network::Element;

impl End {
    /// That end of a quantity.
    pub fn of(self, ends: Ends) -> u64
        ensures { result ≡ end_of self ends }
    {
        match self {
            End::Lower => ends.lower,
            End::Upper => ends.upper,
        }
    }
}

// Matches of two arms, as `End::of` has one, and no function over which field to read: a call of that would be longer.
impl Way {
    /// The point at which a walk enters an element.
    pub fn near(self, element: Element) -> u8
        ensures { result ≡ near_point self element.from element.to }
    {
        match self {
            Way::Back => element.to,
            Way::Onward => element.from,
        }
    }

    /// The point at which it leaves it.
    pub fn far(self, element: Element) -> u8
        ensures { result ≡ far_point self element.from element.to }
    {
        match self {
            Way::Back => element.from,
            Way::Onward => element.to,
        }
    }

    /// The point that a pass over the points 1 to 64 comes to as the k-th: each after those that it leads to.
    pub fn point(self, k: u8) -> u8
        requires { k ≤ 64 }
        ensures { result ≡ point_at self k }
    {
        match self {
            Way::Back => k,
            Way::Onward => 65 - k,
        }
    }
}
