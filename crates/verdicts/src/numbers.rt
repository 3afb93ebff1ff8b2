ghost use Rattle.std.specs.Prelude.{◌≡◌, ◌++◌, Some, codes, decimal};
ghost use Rattle.verdicts.specs.Verdicts.{verdict_number};
ghost use Rattle.verdicts.specs.Numbers.{IsVerdictNumbered};

use super::{UnknownVerdict, Verdict};
use std::error::Error;
use std::fmt;

impl From<Verdict> for u8 {
    ghost from_gives = { λ verdict number. number ≡ verdict_number verdict };

    fn from(verdict: Verdict) -> u8 {
        match verdict {
            Verdict::Meets => 1,
            Verdict::Exceeds => 2,
            Verdict::Undecided => 3,
        }
    }
}

impl TryFrom<u8> for Verdict {
    type Error = UnknownVerdict;

    ghost try_from_gives = { IsVerdictNumbered };

    fn try_from(number: u8) -> Result<Self, UnknownVerdict> {
        match number {
            1 => Ok(Verdict::Meets),
            2 => Ok(Verdict::Exceeds),
            3 => Ok(Verdict::Undecided),
            _ => Err(UnknownVerdict(number)),
        }
    }
}

impl fmt::Display for UnknownVerdict {
    ghost output = { λ unknown. Some (codes "no verdict has the number " ++ decimal unknown.0) };

    fn fmt<W: fmt::Write>(&self, f: &mut fmt::Formatter<W>) -> fmt::Result {
        write!(f, "no verdict has the number {}", self.0)
    }
}

impl Error for UnknownVerdict {}
