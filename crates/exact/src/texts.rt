ghost use Rattle.std.specs.Prelude.{Some, ◌++◌, codes};
ghost use Rattle.std.specs.Fmt.{decimal};

use super::*;
use std::fmt;

impl fmt::Display for Ends {
    ghost output = { λ e. Some (decimal e.lower ++ codes " to " ++ decimal e.upper) };

    fn fmt<W: fmt::Write>(&self, f: &mut fmt::Formatter<W>) -> fmt::Result {
        let Ends { lower, upper } = self;
        write!(f, "{lower} to {upper}")
    }
}
