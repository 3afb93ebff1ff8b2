use network::{CaseData, Draft};
use study::Study;

pub const NIGHT: CaseData = CaseData {
    case_number: 1,
    ship_kind: 1,
    zones: 7,
    embarkation: 0,
};

pub const DAY: CaseData = CaseData {
    case_number: 2,
    ..NIGHT
};

// A study of these elements, closed if it can be.
pub fn closed(case_data: CaseData, drafts: &[Draft]) -> Study {
    let mut study = Study::new();
    let _ = study.set(case_data);
    for draft in drafts {
        let _ = study.enter(*draft);
    }
    let _ = study.close();
    study
}
