ghost use Rattle.std.specs.Prelude.{◌≡◌, ◌*◌, ◌^◌, ◌≤◌, if◌then◌else◌, nat_eq};
ghost use Rattle.exact.specs.Fractions.{Fraction, whole, over};
ghost use Rattle.exact.specs.Worked.{ends, around, exactly, rounded, falling};
ghost use Rattle.sheet.specs.Lines.{shown, walk};

use super::Passing;
use exact::{Ends, Quotient};
use network::{Element, Kind};
use sheet::Line;

// How long an amount takes at a rate, rounded both ways; no time where the rate is 0. No time is 0 and no Option: so the
// rules have it, and so the division of the definitions.
fn time_at(amount: u64, rate: u64) -> Ends
    ensures { result ≡ ends (rounded (over amount (whole rate))) }
{
    if rate == 0 {
        return Ends::default();
    }
    Quotient {
        dividend: amount,
        divisor: rate,
    }
    .rounded_both_ways()
}

// How long an amount takes at a rate between two ends.
fn time_between(amount: u64, rate: Ends) -> Ends
    ensures { (x : Fraction) → result ≡ ends (falling (over amount) (around rate x)) }
{
    rate.falling(|rate| time_at(amount, rate))
}

// How long a walk over a length takes; a door has no way to walk.
fn walk_time(kind: Kind, length: u32, speed: Ends) -> Ends
    requires { length ≤ 100000 }
    ensures { (x : Fraction) → result ≡ ends (walk kind length (around speed x)) }
{
    match kind {
        Kind::Door => Ends::default(),
        Kind::Corridor | Kind::StairDown | Kind::StairUp => {
            time_between(length as u64 * 1_000_000_000_000, speed)
        }
    }
}

impl Passing {
    // How long it takes until all have passed; nobody takes no time.
    fn passing_time(&self) -> Ends
        ensures { (x : Fraction) → result ≡ ends (if nat_eq self.now.persons 0 then exactly 0 else falling (over (self.now.persons * 10 ^ 15)) (around self.now.flow x)) }
    {
        if self.persons == 0 {
            return Ends::default();
        }
        time_between(self.persons as u64 * 1_000_000_000_000_000, self.flow)
    }

    // How long one of those who pass walks; nobody takes no time. The test stands here and above, as each time by itself
    // is 0 where nobody passes.
    fn travel_time(&self, element: &Element) -> Ends
        requires { element.now.length ≤ 100000 }
        ensures { (x : Fraction) → result ≡ ends (if nat_eq self.now.persons 0 then exactly 0 else walk element.now.kind element.now.length (around self.now.speed x)) }
    {
        if self.persons == 0 {
            return Ends::default();
        }
        walk_time(element.kind, element.length, self.speed)
    }

    // The line of an element that they pass.
    pub(crate) fn line(&self, element: &Element) -> Line
        requires { element.now.length ≤ 100000 }
        ensures { (x y : Fraction) → result ≡ shown element.now (record { persons = self.now.persons; queue = self.now.queue; flow = around self.now.flow x; speed = around self.now.speed y }) }
    {
        Line {
            persons: self.persons,
            queue: self.queue,
            flow: self.flow,
            speed: self.speed,
            flow_duration: self.passing_time(),
            travel: self.travel_time(element),
        }
    }
}
