ghost use Rattle.std.specs.Prelude.{◌≡◌, ◌≤◌};
ghost use Rattle.ways.specs.Ends.{end_of};
ghost use Rattle.ways.specs.Walks.{near_point, far_point, gain, longest_from, Reaches};
ghost use Rattle.routes.specs.Timed.{timed_net};

use super::reach::Reach;
use super::timed::TimedNetwork;
use network::Element;
use sheet::Line;
use ways::Way;

/// A pass over all points of a network that finds the longest walks from them, and which way they go.
#[derive(Clone, Copy)]
pub struct Pass<'a> {
    pub network: TimedNetwork<'a>,
    pub way: Way,
}

impl<'a> Pass<'a> {
    // The longest walk from p by this element, from the walks further on: 0 unless it is entered at p and someone
    // passes it.
    fn reach_by(&self, element: Element, line: Line, reach: &Reach, p: u8) -> u64
        requires far { far_point self.now.way element.from element.to ≤ 64 }
        requires travel { end_of self.now.network.end line.travel ≤ 100000000000000000 }
        ensures { result ≡ gain reach.now.walks line.persons (end_of self.now.network.end line.travel) (near_point self.now.way element.from element.to) (far_point self.now.way element.from element.to) p }
    {
        if self.way.near(element) == p && line.persons > 0 {
            reach.at(self.way.far(element)) + self.network.end.of(line.travel)
        } else {
            0
        }
    }

    // The longest walk from p by any element.
    // A loop and no `map` with `max`: tried, and the proof did not close that each pair keeps the bounds.
    #[tactic(auto, using(crate::proofs::Standing::walkable_stands))]
    fn longest_at(&self, reach: &Reach, p: u8) -> u64
        ensures { result ≡ longest_from self.now.way (timed_net self.now.network) reach.now.walks p }
    {
        let mut longest = 0;
        for (element, line) in self.network.elements.iter().zip(self.network.lines) {
            longest = longest.max(self.reach_by(*element, *line, reach, p));
        }
        longest
    }

    /// The longest walks from all points, each found from those of the points that it leads to.
    #[inline]
    pub fn longest_walks(&self) -> Reach
        ensures { Reaches self.now.way (timed_net self.now.network) result.walks }
    {
        let mut reach = Reach::new();
        for k in 1..65 {
            let p = self.way.point(k);
            let longest = self.longest_at(&reach, p);
            reach.set(p, longest);
        }
        reach
    }
}
