#![tactic(auto)]

ghost use Rattle.layout.specs.Laws.{DecodingUndoesEncoding, EncodingUndoesDecoding};

use network::{CaseData, Draft};
use verdicts::Verdict;

/// What begins a study in a file: its case data, its number, and how many elements follow.
#[derive(Clone, Copy, Debug, PartialEq, Eq)]
pub struct Opening {
    pub case_data: CaseData,
    pub number: u32,
    // as the record has it: the elements themselves are the records that follow
    pub count: u16,
}

/// A record of a file. A study is an opening, its elements, and both ends of its finding.
#[derive(Clone, Copy, Debug, PartialEq, Eq)]
pub enum Record {
    Opening(Opening),
    Element(Draft),
    /// the verdict, and the lower end in microseconds
    Lower(Verdict, u64),
    /// the number of the governing element, and the upper end in microseconds
    Upper(u8, u64),
}

/// Records and their bytes determine each other; it computes nothing.
pub fn records_and_bytes_agree()
    ensures decoded { DecodingUndoesEncoding }
    ensures encoded { EncodingUndoesDecoding }
{}
