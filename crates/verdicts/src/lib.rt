#![tactic(auto)]

ghost use Rattle.verdicts.specs.Laws.{MeetsIsTrue, ExceedsIsTrue, UndecidedIsTrue};

use exact::Ends;

mod judging;
mod numbers;
mod texts;

pub use judging::judge;

/// Whether the slowest escape route's time keeps the limit.
#[derive(Clone, Copy, Debug, PartialEq, Eq)]
pub enum Verdict {
    Meets,
    Exceeds,
    Undecided,
}

/// A number that no verdict has.
// Not the error of kinds for both: where `?` turns either into an error of the caller's, the type says which it was.
#[derive(Clone, Copy, Debug, PartialEq, Eq)]
pub struct UnknownVerdict(pub u8);

/// What a study is found to be: the verdict, both ends of the slowest escape route's time in microseconds, and the
/// number of the element that governs it.
#[derive(Clone, Copy, Debug, PartialEq, Eq)]
pub struct Finding {
    pub verdict: Verdict,
    pub time: Ends,
    pub governing: u8,
}

/// What each verdict says of every exact time between the two ends; it computes nothing.
pub fn verdicts_are_true()
    ensures meets { MeetsIsTrue }
    ensures exceeds { ExceedsIsTrue }
    ensures undecided { UndecidedIsTrue }
{}
