ghost use Rattle.std.specs.Prelude.{◌≡◌, ◌<◌, ◌≤◌, [], ◌∷◌, ◌++◌, length, set as put_at, MatchResult};
ghost use Rattle.std.specs.List.{remove};
ghost use Rattle.network.specs.Refusals.{told};
ghost use Rattle.network.specs.Sentences.{first_true};
ghost use Rattle.network.specs.Elements.{aboard as persons_aboard, has_arrivals, has_departures};
ghost use Rattle.network.specs.Points.{loose, point_sentences};
ghost use Rattle.network.specs.Ready.{Tied};
ghost use Rattle.network.specs.Tables.{listed};

use super::*;

impl ElementTable {
    pub fn new() -> ElementTable
        ensures { listed result ≡ [] }
    {
        ElementTable {
            elements: ArrayVec::new(),
        }
    }

    pub fn count(&self) -> usize
        ensures value { result ≡ length (listed self.now) }
        ensures fits { result ≤ 128 }
    {
        self.elements.len()
    }

    /// The elements in order of entry.
    pub fn elements(&self) -> &[Element]
        ensures value { result.now ≡ listed self.now }
        ensures fits { length result.now ≤ 128 }
    {
        self.elements.as_slice()
    }

    /// One element more, at the end.
    pub fn push(&mut self, element: Element)
        requires room { length (listed self.old) < 128 }
        ensures { listed self.new ≡ listed self.old ++ element ∷ [] }
    {
        self.elements.push(element);
    }

    pub fn replace(&mut self, index: usize, element: Element)
        requires there { index < length (listed self.old) }
        ensures { listed self.new ≡ put_at (listed self.old) index element }
    {
        self.elements[index] = element;
    }

    /// Takes the element out and moves the later ones down.
    pub fn remove(&mut self, index: usize)
        requires there { index < length (listed self.old) }
        ensures { listed self.new ≡ remove (listed self.old) index }
    {
        self.elements.remove(index);
    }

    /// All persons, wherever they start.
    pub fn aboard(&self) -> u64
        ensures { result ≡ persons_aboard (listed self.now) }
    {
        let persons = |element: &Element| u64::from(element.persons);
        self.elements().iter().map(persons).sum()
    }

    /// Whether some element leads to the point.
    pub fn arrives(&self, point: u8) -> bool
        ensures { result ≡ has_arrivals (listed self.now) point }
    {
        self.elements().iter().any(|element| element.to == point)
    }

    /// Whether some element leaves the point.
    // Beside `arrives`, each of one line: a function over which point to read would be longer, and longer to call.
    pub fn departs(&self, point: u8) -> bool
        ensures { result ≡ has_departures (listed self.now) point }
    {
        self.elements().iter().any(|element| element.from == point)
    }

    // Whether something leads to the point and nothing leaves it, or the reverse.
    fn is_loose(&self, point: u8) -> bool
        ensures { result ≡ loose (listed self.now) point }
    {
        self.arrives(point) != self.departs(point)
    }

    /// Refuses the lowest loose point.
    pub fn check_points(&self) -> Result<(), Refusal>
        ensures answered { told result ≡ first_true (point_sentences (listed self.now)) tt }
        ensures tied { MatchResult result (λ _. Tied (listed self.now)) (λ _. Tied (listed self.now) → ⊥) }
    {
        match (1..=64u8).find(|point| self.is_loose(*point)) {
            Some(point) => Err(Refusal::LoosePoint(u32::from(point))),
            None => Ok(()),
        }
    }
}
