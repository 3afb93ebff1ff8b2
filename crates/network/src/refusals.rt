ghost use Rattle.std.specs.Prelude.{◌≡◌, Some};
ghost use Rattle.network.specs.Refusals.{number_of, place_of, refusal_text};

use super::*;
use std::error::Error;
use std::fmt;

impl Refusal {
    /// The number that the refusal is listed under, from 1.
    // A method and no cast or `From`: variants that hold a place have no number of their own, and a refusal two numbers.
    pub fn number(&self) -> u8
        ensures { result ≡ number_of self.now }
    {
        match self {
            Refusal::WrongStage => 1,
            Refusal::NoSuchElement(_) => 2,
            Refusal::TableFull => 3,
            Refusal::UnknownKind(_) => 4,
            Refusal::WidthOutOfRange(_) => 5,
            Refusal::LengthOutOfRange(_) => 6,
            Refusal::WrongPoints(_) => 7,
            Refusal::WrongPersons(_) => 8,
            Refusal::CaseDataOutOfRange(_) => 9,
            Refusal::CaseNotSet => 10,
            Refusal::AboardOutOfRange => 11,
            Refusal::LoosePoint(_) => 12,
            Refusal::WorksheetTooShort => 13,
            Refusal::FlowTooThin(_) => 14,
            Refusal::UnevenFile(_) => 15,
            Refusal::BadRecord(_) => 16,
            Refusal::ReadStudyRefused(_) => 17,
            Refusal::FileFull => 18,
            Refusal::WrongFiling => 19,
        }
    }

    /// The element, item, point or record that is wrong; 0 where the refusal names none.
    // A number and no Option: by the rules every refusal is told as a number and a place, which is 0 where it has none.
    pub fn place(&self) -> u32
        ensures { result ≡ place_of self.now }
    {
        match self {
            Refusal::NoSuchElement(place)
            | Refusal::UnknownKind(place)
            | Refusal::WidthOutOfRange(place)
            | Refusal::LengthOutOfRange(place)
            | Refusal::WrongPoints(place)
            | Refusal::WrongPersons(place)
            | Refusal::CaseDataOutOfRange(place)
            | Refusal::LoosePoint(place)
            | Refusal::FlowTooThin(place)
            | Refusal::UnevenFile(place)
            | Refusal::BadRecord(place)
            | Refusal::ReadStudyRefused(place) => *place,
            Refusal::WrongStage
            | Refusal::TableFull
            | Refusal::CaseNotSet
            | Refusal::AboardOutOfRange
            | Refusal::WorksheetTooShort
            | Refusal::FileFull
            | Refusal::WrongFiling => 0,
        }
    }
}

impl fmt::Display for Refusal {
    ghost output = { λ refusal. Some (refusal_text refusal) };

    fn fmt<W: fmt::Write>(&self, f: &mut fmt::Formatter<W>) -> fmt::Result {
        let number = self.number();
        let place = self.place();
        write!(f, "refused {number} at {place}")
    }
}

impl Error for Refusal {}
