#![tactic(auto)]

ghost use Rattle.std.specs.Prelude.{◌≡◌};
ghost use Rattle.examples.specs.Examples.{ExamplesHold};

use walking::{Circular, RuleBook, SlowerWalk, WalkingTables};

#[cfg(test)]
mod tests;

// The worked examples follow from the written definitions; it computes nothing.
pub fn examples_hold()
    ensures { ExamplesHold }
{}

// Two slower walks, one over the other, over the circular: 600 per mille of 600 per mille.
fn slowed_twice() -> SlowerWalk<SlowerWalk<Circular>>
    ensures outer { result.per_mille ≡ 600 }
    ensures inner { result.below.per_mille ≡ 600 }
{
    SlowerWalk {
        below: SlowerWalk {
            below: Circular,
            per_mille: 600,
        },
        per_mille: 600,
    }
}

// 670 becomes 402, and that 241: each walk rounds down by itself.
pub fn row_of_slowed_twice() -> (u32, u32, u32)
    ensures { result ≡ (1900, 1300, 241) }
{
    slowed_twice().row(1, 2)
}

// 200 becomes 120, and that 72, which is lifted to 100; curve 0 counts as curve 1.
pub fn lifted_row_of_slowed_twice() -> (u32, u32, u32)
    ensures { result ≡ (3200, 650, 100) }
{
    slowed_twice().row(0, 3)
}

// The rest is passed on: rows of curve 9, which counts as 4, the door flow, and the rules of case 3 and of a ship of
// kind 2 with four zones.
pub fn rest_of_slowed_twice() -> (usize, u32, u32, u32, u32)
    ensures { result ≡ (3, 1300, 600, 16, 80) }
{
    let book = slowed_twice();
    (
        book.rows(9),
        book.door_flow(),
        book.response(3),
        book.factor(3),
        book.limit(2, 4),
    )
}
