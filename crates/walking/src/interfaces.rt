ghost use Rattle.std.specs.Prelude.{◌≡◌, length};
ghost use Rattle.walking.specs.Curves.{Tables, curve_of, row_of};
ghost use Rattle.walking.specs.Laws.{Lawful};
ghost use Rattle.walking.specs.Rules.{Rules, InRange, response_of, factor_of, limit_of};

/// Entry, flow and speed of a curve, in thousandths. By the rules every rule book answers a row as a tuple of three
/// numbers.
pub type Row = (u32, u32, u32);

/// Four curves of walking and a door flow. Curve 1 is by density, curves 2 to 4, for corridors, stairs down and
/// stairs up, are by specific flow; all numbers are thousandths. A question outside its range is answered as for the
/// nearest number in range: so curves are asked for by number, and not by an enum, which would leave no such question.
pub trait WalkingTables {
    ghost meaning: { Self → Tables };

    /// how many rows a curve has
    // rows and row, and no slice of rows: a slower walk holds none, and makes each row as it is asked for
    fn rows(&self, curve: u8) -> usize
        ensures { result ≡ length (curve_of (meaning self.now) curve) };

    /// row i of a curve, counted from 0: entry, flow and speed
    fn row(&self, curve: u8, i: usize) -> Row
        ensures { result ≡ row_of (meaning self.now) curve i };

    /// the specific flow of a door that is crowded
    fn door_flow(&self) -> u32
        ensures { result ≡ (meaning self.now).door };

    ghost lawful: { (x : Self) → Lawful (meaning x) };
}

/// Walking tables with what decides over a time. A question outside its range is answered as for the nearest number
/// in range: so cases and ship kinds too are asked for by number.
pub trait RuleBook: WalkingTables {
    ghost rules: { Self → Rules };

    /// the response duration of a case, in seconds
    fn response(&self, case_number: u8) -> u32
        ensures { result ≡ response_of (rules self.now) case_number };

    /// the factor on the travel duration of a case, in tenths
    fn factor(&self, case_number: u8) -> u32
        ensures { result ≡ factor_of (rules self.now) case_number };

    /// the limit of a ship kind with a number of main vertical zones, in minutes
    fn limit(&self, ship_kind: u8, zones: u8) -> u32
        ensures { result ≡ limit_of (rules self.now) ship_kind zones };

    ghost ranges: { (x : Self) → InRange (rules x) };
}
