#![tactic(auto)]

ghost use Rattle.std.specs.Prelude.{◌≤◌, length};

mod checks;
mod kinds;
mod ready;
mod refusals;
mod table;

use arrayvec::ArrayVec;
pub use checks::{check_case, check_element};
pub use ready::ReadyNetwork;

/// What a passage of the escape routes is. The default stands in the unused places of a table only.
#[derive(Clone, Copy, Debug, Default, PartialEq, Eq)]
pub enum Kind {
    #[default]
    Corridor,
    Door,
    StairDown,
    StairUp,
}

/// A number that names no kind.
// Verdicts have an error of their own: where `?` turns either into an error of the caller's, the type says which it was.
#[derive(Clone, Copy, Debug, PartialEq, Eq)]
pub struct UnknownKind(pub u8);

/// An element as a caller or a file gives it, not checked yet: its kind by number, its clear width and its length in
/// millimetres, the persons who start in it, and the transition points 1 to 64 that it leads from and to.
/// From 0 marks a source, and to 0 is the assembly station.
#[derive(Clone, Copy, Debug, PartialEq, Eq)]
pub struct Draft {
    // a byte and no Kind: nothing is checked yet, and every byte that a caller or a file gives needs a place
    pub kind: u8,
    // bytes and no Option: a caller or a file gives 0 for a source and for the station, and may give any byte
    pub from: u8,
    pub to: u8,
    pub width: u32,
    pub length: u32,
    pub persons: u32,
}

/// An element of a network: a draft whose kind is known.
#[derive(Clone, Copy, Debug, Default, PartialEq, Eq)]
pub struct Element {
    pub kind: Kind,
    // the draft's bytes: the definitions, and the tables of walks by point, read source and station as point 0
    pub from: u8,
    pub to: u8,
    pub width: u32,
    pub length: u32,
    pub persons: u32,
}

/// What a study is made for: the case 1 to 4, the ship's kind (1 ro-ro, 2 other), its main vertical zones, and the
/// seconds that embarkation and launching take (0 where they are not given).
#[derive(Clone, Copy, Debug, PartialEq, Eq)]
pub struct CaseData {
    // numbers and no enums: a caller or a file gives them before any check, and rule books are asked by number
    pub case_number: u8,
    pub ship_kind: u8,
    pub zones: u8,
    // 0 and no Option: a caller or a file that gives none gives 0, and the rules say what that stands for
    pub embarkation: u32,
}

/// Why a call is refused, in the order of checking. A payload is the place: an element's number, the item of the case
/// data, a point, or a record of a file.
#[derive(Clone, Copy, Debug, PartialEq, Eq)]
pub enum Refusal {
    /// the call needs the other stage
    WrongStage,
    /// no element has this number
    NoSuchElement(u32),
    /// there are 128 elements already
    TableFull,
    /// the kind is not 1 to 4
    UnknownKind(u32),
    /// the width is not 500 to 10,000 mm
    WidthOutOfRange(u32),
    /// a door has a length, or anything else one that is not 100 to 100,000 mm
    LengthOutOfRange(u32),
    /// a point is above 64, or the way between two points does not rise
    WrongPoints(u32),
    /// there are more than 8,000 persons, or some in a stair or behind a point
    WrongPersons(u32),
    /// case (1), ship kind (2), zones (3) or embarkation (4) is out of its range
    // a number and no enum of items: by the rules a place is a number
    CaseDataOutOfRange(u32),
    /// there is no case data yet
    CaseNotSet,
    /// nobody is aboard, or more than 8,000 are
    AboardOutOfRange,
    /// this point has arrivals and no departure, or the reverse
    LoosePoint(u32),
    /// the worksheet has fewer lines than there are elements
    WorksheetTooShort,
    /// persons pass this element at too thin a flow
    FlowTooThin(u32),
    /// a file ends within a record, after this many whole ones
    UnevenFile(u32),
    /// this record is missing or breaks the layout
    BadRecord(u32),
    /// a study that was read is refused at this record
    ReadStudyRefused(u32),
    /// a file has fewer bytes left than are to be written
    FileFull,
    /// a filed study has no lawful count, other elements than it counts, or a last record that breaks the layout
    WrongFiling,
}

/// The elements of a study in order of entry, at most 128 of them.
#[derive(Drop)]
pub struct ElementTable {
    elements: ArrayVec<Element, 128>,
    ghost fits: { length elements.items ≤ 128 },
}
