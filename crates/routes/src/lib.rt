#![tactic(auto)]

ghost use Rattle.std.specs.Prelude.{◌≡◌, ◌+◌, ◌<◌};
ghost use Rattle.ways.specs.Ends.{greatest_time, lower_end, upper_end, governing_by, governing};
ghost use Rattle.routes.specs.Worksheets.{SomeWorkedOut, OfWorksheet};

use exact::Ends;
use network::Element;
use sheet::Line;
use ways::End;

mod passes;
mod ranks;
mod reach;
mod timed;

use ranks::{LongestWalks, Ranked};
use timed::TimedNetwork;

/// The time of a network: the greatest lower and the greatest upper time of a used route, in microseconds, and the
/// number of the element that governs, from 1.
#[derive(Clone, Copy, Debug, PartialEq, Eq)]
pub struct RouteEnds {
    pub time: Ends,
    pub governing: u8,
}

// Here and below two slices: the caller lends the lines, the study the elements.

// The element that governs by one end, with a rank of one more than the time of the slowest used route.
fn find_governing(elements: &[Element], lines: &[Line], end: End) -> Ranked
    requires worked { SomeWorkedOut elements.now lines.now }
    ensures within { result.index < 128 }
    ensures rank { OfWorksheet elements.now lines.now (λ ls. result.rank ≡ 1 + greatest_time end elements.now ls) }
    ensures index { OfWorksheet elements.now lines.now (λ ls. result.index + 1 ≡ governing_by end elements.now ls) }
{
    let network = TimedNetwork {
        elements,
        lines: &lines[..elements.len()],
        end,
    };
    LongestWalks::find(network).first_most()
}

/// Both ends of a network's time, and the element that governs, by the lines of its worksheet.
pub fn find_ends(elements: &[Element], lines: &[Line]) -> RouteEnds
    requires worked { SomeWorkedOut elements.now lines.now }
    ensures lower { OfWorksheet elements.now lines.now (λ ls. result.time.lower ≡ lower_end elements.now ls) }
    ensures upper { OfWorksheet elements.now lines.now (λ ls. result.time.upper ≡ upper_end elements.now ls) }
    ensures governing { OfWorksheet elements.now lines.now (λ ls. result.governing ≡ governing elements.now ls) }
{
    let lower = find_governing(elements, lines, End::Lower);
    let upper = find_governing(elements, lines, End::Upper);
    RouteEnds {
        time: Ends {
            lower: lower.rank - 1,
            upper: upper.rank - 1,
        },
        governing: (upper.index + 1) as u8,
    }
}
