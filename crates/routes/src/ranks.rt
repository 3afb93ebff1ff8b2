ghost use Rattle.std.specs.Prelude.{◌≡◌, ◌<◌, ◌≤◌, length};
ghost use Rattle.ways.specs.Ends.{end_of};
ghost use Rattle.ways.specs.declared.Way.TheVariants.{Back, Onward};
ghost use Rattle.ways.specs.Walks.{rank, ranks, Reaches, FirstMost};
ghost use Rattle.routes.specs.Timed.{timed_net};

use super::passes::Pass;
use super::reach::Reach;
use super::timed::TimedNetwork;
use network::Element;
use sheet::Line;
use ways::Way;

/// The longest walks from all points of a network, back to a source and onward to the station.
#[derive(Drop)]
pub struct LongestWalks<'a> {
    pub network: TimedNetwork<'a>,
    pub back: Reach,
    pub onward: Reach,
}

/// The first element of the greatest rank.
#[derive(Clone, Copy, Debug, PartialEq, Eq)]
pub struct Ranked {
    pub index: usize,
    pub rank: u64,
}

impl<'a> LongestWalks<'a> {
    pub fn find(network: TimedNetwork<'a>) -> LongestWalks<'a>
        ensures network { result.network ≡ network.entry }
        ensures back { Reaches Back (timed_net network.entry) result.back.walks }
        ensures onward { Reaches Onward (timed_net network.entry) result.onward.walks }
    {
        let back = Pass {
            network,
            way: Way::Back,
        };
        let onward = Pass {
            network,
            way: Way::Onward,
        };
        LongestWalks {
            network,
            back: back.longest_walks(),
            onward: onward.longest_walks(),
        }
    }

    // 0 where nobody passes the element; else one more than its flow duration with the longest walks back and onward
    // from it. A number and no Option: the definitions order the elements by it.
    fn rank_of(&self, element: Element, line: Line) -> u64
        requires starts { element.from ≤ 64 }
        requires ends { element.to ≤ 64 }
        requires duration { end_of self.now.network.end line.flow_duration ≤ 1000000000000 }
        requires travel { end_of self.now.network.end line.travel ≤ 100000000000000000 }
        ensures { result ≡ rank self.now.back.walks self.now.onward.walks line.persons (end_of self.now.network.end line.flow_duration) (end_of self.now.network.end line.travel) element.from element.to }
    {
        if line.persons == 0 {
            return 0;
        }
        let end = self.network.end;
        let walked = self.back.at(element.from) + end.of(line.travel) + self.onward.at(element.to);
        1 + end.of(line.flow_duration) + walked
    }

    /// The first element of the greatest rank.
    #[tactic(auto, using(crate::proofs::Standing::walkable_stands))]
    pub fn first_most(&self) -> Ranked
        ensures most { FirstMost (ranks (timed_net self.now.network) self.now.back.walks self.now.onward.walks) (length self.now.network.elements.now) result.index result.rank }
        ensures some { 0 < result.rank }
    {
        let mut most = Ranked { index: 0, rank: 0 };
        // a loop: the library's `max_by_key` would give the last of equals, and the first governs
        let lines = self.network.lines;
        for (index, (element, line)) in self.network.elements.iter().zip(lines).enumerate() {
            let rank = self.rank_of(*element, *line);
            if rank > most.rank {
                most = Ranked { index, rank };
            }
        }
        most
    }
}
