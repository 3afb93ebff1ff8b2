#![tactic(auto)]

ghost use Rattle.std.specs.Prelude.{◌<◌};

mod laws;
mod outward;
mod roundings;
mod texts;

pub use laws::exact_numbers_keep_their_laws;

/// The lower and the upper end of a worked quantity, which lies between them.
#[derive(Clone, Copy, PartialEq, Eq, Debug, Default)]
pub struct Ends {
    pub lower: u64,
    pub upper: u64,
}

/// A fraction of two whole numbers, the second above 0.
#[derive(Clone, Copy, PartialEq, Eq, Debug)]
pub struct Quotient {
    pub dividend: u64,
    pub divisor: u64,
    ghost proper: { 0 < divisor },
}
