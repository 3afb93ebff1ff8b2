use crate::samples::*;
use network::{CaseData, Draft};
use study::Study;

// Kind, from, to, width, length and persons of a first element, and the number of the refusal that entering it gives.
// The place of a refusal is 1.
static ELEMENTS: [(u8, u8, u8, u32, u32, u32, Option<u8>); 44] = [
    (1, 0, 1, 1000, 10_000, 5, None),
    (2, 0, 0, 1000, 0, 100, None),
    (3, 1, 0, 1400, 4670, 0, None),
    (4, 1, 0, 1400, 4670, 0, None),
    // the kind
    (0, 1, 0, 1400, 4670, 0, Some(4)),
    (5, 1, 0, 1400, 4670, 0, Some(4)),
    (255, 1, 0, 1400, 4670, 0, Some(4)),
    // the width
    (1, 0, 1, 499, 10_000, 5, Some(5)),
    (1, 0, 1, 500, 10_000, 5, None),
    (1, 0, 1, 10_000, 10_000, 5, None),
    (1, 0, 1, 10_001, 10_000, 5, Some(5)),
    (1, 0, 1, 4_294_967_295, 10_000, 5, Some(5)),
    // the length
    (1, 0, 1, 1000, 99, 5, Some(6)),
    (1, 0, 1, 1000, 100, 5, None),
    (1, 0, 1, 1000, 100_000, 5, None),
    (1, 0, 1, 1000, 100_001, 5, Some(6)),
    (3, 1, 0, 1400, 0, 0, Some(6)),
    (4, 1, 0, 1400, 99, 0, Some(6)),
    (4, 1, 0, 1400, 100, 0, None),
    (2, 0, 0, 1000, 1, 100, Some(6)),
    (2, 0, 0, 1000, 100, 100, Some(6)),
    // the points
    (1, 0, 64, 1000, 10_000, 5, None),
    (1, 0, 65, 1000, 10_000, 5, Some(7)),
    (3, 64, 0, 1400, 4670, 0, None),
    (3, 65, 0, 1400, 4670, 0, Some(7)),
    (3, 63, 64, 1400, 4670, 0, None),
    (3, 64, 64, 1400, 4670, 0, Some(7)),
    (3, 1, 1, 1400, 4670, 0, Some(7)),
    (3, 2, 1, 1400, 4670, 0, Some(7)),
    (3, 0, 255, 1400, 4670, 0, Some(7)),
    // the persons
    (1, 0, 1, 1000, 10_000, 0, None),
    (1, 0, 1, 1000, 10_000, 8000, None),
    (1, 0, 1, 1000, 10_000, 8001, Some(8)),
    (2, 0, 0, 1000, 0, 8001, Some(8)),
    (3, 0, 1, 1400, 4670, 1, Some(8)),
    (4, 0, 1, 1400, 4670, 1, Some(8)),
    (3, 0, 1, 1400, 4670, 0, None),
    (1, 1, 2, 1000, 10_000, 1, Some(8)),
    (2, 1, 0, 1000, 0, 1, Some(8)),
    // the first that is wrong
    (0, 65, 65, 0, 0, 8001, Some(4)),
    (1, 65, 65, 0, 0, 8001, Some(5)),
    (1, 65, 65, 500, 0, 8001, Some(6)),
    (1, 65, 65, 500, 100, 8001, Some(7)),
    (1, 64, 0, 500, 100, 8001, Some(8)),
];

#[test]
fn elements(rt: HostRuntime) {
    for &(kind, from, to, width, length, persons, refusal) in &ELEMENTS {
        let draft = Draft {
            kind,
            from,
            to,
            width,
            length,
            persons,
        };
        let mut study = Study::new();
        let refused = told(study.enter(draft)).err();
        assert_eq!(rt; refused, refusal.map(|number| (number, 1)));
        assert_eq!(rt; study.count(), usize::from(refusal.is_none()));
    }
}

// Case, ship kind, zones and embarkation, and the number and place of the refusal that setting them gives.
static CASES: [(u8, u8, u8, u32, Option<(u8, u32)>); 19] = [
    (1, 1, 5, 1800, None),
    // the case
    (0, 1, 5, 1800, Some((9, 1))),
    (4, 1, 5, 1800, None),
    (5, 1, 5, 1800, Some((9, 1))),
    (255, 1, 5, 1800, Some((9, 1))),
    // the kind of ship
    (1, 0, 5, 1800, Some((9, 2))),
    (1, 2, 5, 1800, None),
    (1, 3, 5, 1800, Some((9, 2))),
    // the zones
    (1, 1, 0, 1800, Some((9, 3))),
    (1, 1, 1, 1800, None),
    (1, 1, 20, 1800, None),
    (1, 1, 21, 1800, Some((9, 3))),
    // embarkation and launching
    (1, 1, 5, 0, None),
    (1, 1, 5, 7200, None),
    (1, 1, 5, 7201, Some((9, 4))),
    (1, 1, 5, 4_294_967_295, Some((9, 4))),
    // the first that is wrong
    (0, 0, 0, 7201, Some((9, 1))),
    (1, 0, 0, 7201, Some((9, 2))),
    (1, 1, 0, 7201, Some((9, 3))),
];

#[test]
fn case_data(rt: HostRuntime) {
    for &(case_number, ship_kind, zones, embarkation, refusal) in &CASES {
        let data = CaseData {
            case_number,
            ship_kind,
            zones,
            embarkation,
        };
        let mut study = Study::new();
        assert_eq!(rt; told(study.set(data)).err(), refusal);
        assert!(rt; study.case_data() == refusal.is_none().then_some(data));
    }
}
