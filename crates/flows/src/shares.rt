ghost use Rattle.std.specs.Prelude.{◌≡◌, ◌*◌, ◌/◌, ◌%◌, ◌<◌, ◌≤◌, ◌&&◌, ◌||◌, length, ◌==◌, nat_lt};
ghost use Rattle.exact.specs.Sums.{count_where};
ghost use Rattle.network.specs.Elements.{el};
ghost use Rattle.sheet.specs.Shares.{width_out as width_leaving, before, left_over as persons_left_over, share as share_of};

use super::Sharing;
use network::{Element, ReadyNetwork};

/// The width of all that leaves a point.
// Any other element adds 0, here and twice below: a filter jumps at each element, which took longer.
pub fn width_out(network: ReadyNetwork<'_>, point: u8) -> u32
    ensures { result ≡ width_leaving network.entry.elements.now point }
{
    network
        .elements
        .iter()
        .map(|element| {
            if element.from == point {
                element.width
            } else {
                0
            }
        })
        .sum()
}

// Whether the element j, with the remainder b, is served before the element i, with the remainder a.
fn served_before(a: u64, b: u64, i: usize, j: usize) -> bool
    ensures { result ≡ (nat_lt a b || (a == b && nat_lt j i)) }
{
    (a < b) | ((a == b) & (j < i))
}

impl Sharing<'_> {
    // What the width of an element gives it, in whole persons.
    fn part(&self, element: &Element) -> u64
        ensures { result ≡ self.now.persons * element.now.width / self.now.width }
    {
        self.persons as u64 * element.width as u64 / self.width as u64
    }

    // What is left of that division. Beside `part`, each of one line: a pair of both would be taken apart at each call.
    fn remainder(&self, element: &Element) -> u64
        ensures { result ≡ self.now.persons * element.now.width % self.now.width }
    {
        self.persons as u64 * element.width as u64 % self.width as u64
    }

    /// The persons whom the whole parts leave over.
    pub fn left_over(&self) -> u32
        ensures { result ≡ persons_left_over self.now.network.elements.now self.now.point self.now.persons }
    {
        let given: u64 = self
            .network
            .elements
            .iter()
            .map(|element| {
                if element.from == self.point {
                    self.part(element)
                } else {
                    0
                }
            })
            .sum();
        self.persons - given as u32
    }

    // How many elements are served before the element i.
    fn rank(&self, i: usize) -> usize
        requires { i < length self.now.network.elements.now }
        ensures { result ≡ count_where (length self.now.network.elements.now) (before self.now.network.elements.now self.now.point self.now.persons i) }
    {
        let own = self.remainder(&self.network.elements[i]);
        self.network
            .elements
            .iter()
            .enumerate()
            .map(|(j, element)| {
                let before = element.from == self.point
                    && served_before(own, self.remainder(element), i, j);
                usize::from(before)
            })
            .sum()
    }

    /// The persons of the element i: its whole part, and one more if fewer elements are served before it than persons
    /// are left over.
    pub fn share(&self, left_over: u32, i: usize) -> u32
        requires left { left_over ≡ persons_left_over self.now.network.elements.now self.now.point self.now.persons }
        requires within { i < length self.now.network.elements.now }
        requires leaving { (el self.now.network.elements.now i).from ≡ self.now.point }
        ensures value { result ≡ share_of self.now.network.elements.now self.now.point self.now.persons i }
        ensures small { result ≤ self.now.persons }
    {
        let part = self.part(&self.network.elements[i]) as u32;
        if self.rank(i) < left_over as usize {
            part + 1
        } else {
            part
        }
    }
}
