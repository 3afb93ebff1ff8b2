ghost use Rattle.std.specs.Prelude.{Some};
ghost use Rattle.verdicts.specs.Texts.{verdict_text, finding_text};

use super::{Finding, Verdict};
use std::fmt;

impl fmt::Display for Verdict {
    ghost output = { λ verdict. Some (verdict_text verdict) };

    fn fmt<W: fmt::Write>(&self, f: &mut fmt::Formatter<W>) -> fmt::Result {
        f.write_str(match self {
            Verdict::Meets => "meets the limit",
            Verdict::Exceeds => "exceeds the limit",
            Verdict::Undecided => "undecided",
        })
    }
}

impl fmt::Display for Finding {
    ghost output = { λ finding. Some (finding_text finding) };

    fn fmt<W: fmt::Write>(&self, f: &mut fmt::Formatter<W>) -> fmt::Result {
        let Finding {
            verdict,
            time,
            governing,
        } = self;
        write!(
            f,
            "{time} microseconds, governed by element {governing}: {verdict}"
        )
    }
}
