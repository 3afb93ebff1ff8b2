ghost use Rattle.std.specs.Prelude.{◌≡◌, codes, decimal, ◌++◌, Some};
ghost use Rattle.network.specs.Kinds.{kind_number, IsKindNumbered};

use super::*;
use std::error::Error;
use std::fmt;

impl From<Kind> for u8 {
    ghost from_gives = { λ kind number. number ≡ kind_number kind };

    fn from(kind: Kind) -> u8 {
        match kind {
            Kind::Corridor => 1,
            Kind::Door => 2,
            Kind::StairDown => 3,
            Kind::StairUp => 4,
        }
    }
}

impl TryFrom<u8> for Kind {
    type Error = UnknownKind;

    ghost try_from_gives = { IsKindNumbered };

    fn try_from(number: u8) -> Result<Self, UnknownKind> {
        match number {
            1 => Ok(Kind::Corridor),
            2 => Ok(Kind::Door),
            3 => Ok(Kind::StairDown),
            4 => Ok(Kind::StairUp),
            _ => Err(UnknownKind(number)),
        }
    }
}

impl fmt::Display for UnknownKind {
    ghost output = { λ unknown. Some (codes "no kind has the number " ++ decimal unknown.0) };

    fn fmt<W: fmt::Write>(&self, f: &mut fmt::Formatter<W>) -> fmt::Result {
        write!(f, "no kind has the number {}", self.0)
    }
}

impl Error for UnknownKind {}
