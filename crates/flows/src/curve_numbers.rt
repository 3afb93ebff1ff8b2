ghost use Rattle.std.specs.Prelude.{◌≡◌, ◌*◌};
ghost use Rattle.curves.specs.Reading.{mega};
ghost use Rattle.flows.specs.Curves.{walking_curve as curve_walked, starting_curve as curve_started};

use network::Kind;

// The curves of walking tables: by their numbers and not by an enum, as rule books are asked.
const BY_DENSITY: u8 = 1;

const IN_CORRIDORS: u8 = 2;

const DOWN_STAIRS: u8 = 3;

const UP_STAIRS: u8 = 4;

// The curve by which persons walk in a kind of element at a specific flow; through a door nobody walks.
pub(crate) fn walking_curve(kind: Kind) -> Option<u8>
    ensures { result ≡ curve_walked kind }
{
    match kind {
        Kind::Corridor => Some(IN_CORRIDORS),
        Kind::Door => None,
        Kind::StairDown => Some(DOWN_STAIRS),
        Kind::StairUp => Some(UP_STAIRS),
    }
}

// The curve that gives the speed in a source without persons.
pub(crate) fn starting_curve(kind: Kind) -> Option<u8>
    ensures { result ≡ curve_started kind }
{
    match kind {
        Kind::Corridor => Some(BY_DENSITY),
        Kind::Door | Kind::StairDown | Kind::StairUp => walking_curve(kind),
    }
}

// An entry of walking tables, which has thousandths, in billionths.
pub(crate) fn billionths(thousandths: u32) -> u64
    ensures { result ≡ thousandths * mega }
{
    thousandths as u64 * 1_000_000
}
