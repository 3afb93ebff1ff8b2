use crate::samples::*;
use ledger::Stage;
use network::{CaseData, Draft};
use study::Study;

const ACCEPTED: Result<(), (u8, u32)> = Ok(());

#[test]
fn numbers_of_elements(rt: HostRuntime) {
    let mut study = Study::new();
    assert_eq!(rt; told(study.strike(0)), Err((2, 0)));
    assert_eq!(rt; told(study.strike(1)), Err((2, 1)));
    assert_eq!(rt; told(study.alter(1, door(1000, 1))), Err((2, 1)));
    let mut study = doors(&[1000, 2000]);
    assert_eq!(rt; told(study.alter(0, door(1000, 1))), Err((2, 0)));
    assert_eq!(rt; told(study.alter(3, door(1000, 1))), Err((2, 3)));
    assert_eq!(rt; told(study.strike(3)), Err((2, 3)));
    assert_eq!(rt; told(study.strike(4_294_967_295)), Err((2, 4_294_967_295)));
    // a wrong element is named by the number that it has, or would get
    assert_eq!(rt; told(study.alter(2, door(499, 1))), Err((5, 2)));
    assert_eq!(rt; told(study.alter(3, door(499, 1))), Err((2, 3)));
    assert_eq!(rt; told(study.enter(door(499, 1))), Err((5, 3)));
    assert_eq!(rt;
        (width(&study, 1), width(&study, 2)),
        (Some(1000), Some(2000))
    );
    assert_eq!(rt; (width(&study, 0), width(&study, 3)), (None, None));
}

#[test]
fn altering_and_striking(rt: HostRuntime) {
    let mut study = doors(&[1000, 2000, 3000, 4000]);
    assert_eq!(rt; told(study.alter(2, door(2500, 1))), ACCEPTED);
    assert_eq!(rt;
        (width(&study, 1), width(&study, 2), width(&study, 3)),
        (Some(1000), Some(2500), Some(3000))
    );
    assert_eq!(rt; told(study.strike(2)), ACCEPTED);
    assert_eq!(rt; study.count(), 3);
    assert_eq!(rt;
        (width(&study, 1), width(&study, 2), width(&study, 3)),
        (Some(1000), Some(3000), Some(4000))
    );
    assert_eq!(rt; told(study.strike(3)), ACCEPTED);
    assert_eq!(rt; told(study.strike(1)), ACCEPTED);
    assert_eq!(rt; (study.count(), width(&study, 1)), (1, Some(3000)));
}

#[test]
fn at_most_128_elements(rt: HostRuntime) {
    let mut study = Study::new();
    for _ in 0..128 {
        assert_eq!(rt; told(study.enter(door(1000, 62))), ACCEPTED);
    }
    assert_eq!(rt; study.count(), 128);
    assert_eq!(rt; told(study.enter(door(1000, 62))), Err((3, 0)));
    assert_eq!(rt; told(study.enter(door(499, 62))), Err((3, 0)));
    // 127 times 62 and 126 are 8,000
    assert_eq!(rt; told(study.alter(128, door(1000, 126))), ACCEPTED);
    assert_eq!(rt; told(study.set(CASE)), ACCEPTED);
    assert_eq!(rt; told(study.close()), ACCEPTED);
    assert_eq!(rt; study.elements().len(), 128);
}

// What closing answers, with case data set and these elements entered. The tests of findings enter them so too: a crate
// for both would be longer.
fn closing(drafts: &[Draft]) -> Result<(), (u8, u32)> {
    let mut study = Study::new();
    let _ = study.set(CASE);
    for draft in drafts {
        let _ = study.enter(*draft);
    }
    told(study.close())
}

#[test]
fn closing_counts_persons(rt: HostRuntime) {
    assert_eq!(rt; told(Study::new().close()), Err((10, 0)));
    assert_eq!(rt; told(doors(&[1000]).close()), Err((10, 0)));
    assert_eq!(rt; closing(&[]), Err((11, 0)));
    assert_eq!(rt; closing(&[door(1000, 0)]), Err((11, 0)));
    assert_eq!(rt; closing(&[door(1000, 1)]), ACCEPTED);
    assert_eq!(rt; closing(&[door(1000, 8000)]), ACCEPTED);
    assert_eq!(rt; closing(&[door(1000, 7999), door(1000, 1)]), ACCEPTED);
    assert_eq!(rt; closing(&[door(1000, 8000), door(1000, 1)]), Err((11, 0)));
    // before it looks at the points
    assert_eq!(rt; closing(&[stair(0, 1)]), Err((11, 0)));
}

#[test]
fn closing_ties_points(rt: HostRuntime) {
    assert_eq!(rt; closing(&[corridor(1), stair(1, 0)]), ACCEPTED);
    assert_eq!(rt; closing(&[corridor(1)]), Err((12, 1)));
    assert_eq!(rt; closing(&[corridor(0), stair(1, 0)]), Err((12, 1)));
    assert_eq!(rt; closing(&[corridor(64)]), Err((12, 64)));
    assert_eq!(rt; closing(&[corridor(0), stair(64, 0)]), Err((12, 64)));
    assert_eq!(rt; closing(&[corridor(64), stair(64, 0)]), ACCEPTED);
    // the lowest
    assert_eq!(rt;
        closing(&[corridor(9), stair(7, 0), corridor(8)]),
        Err((12, 7))
    );
    assert_eq!(rt; closing(&[corridor(1), stair(1, 2)]), Err((12, 2)));
}

#[test]
fn stages(rt: HostRuntime) {
    let mut study = doors(&[1000, 2000]);
    assert_eq!(rt; told(study.reopen()), Err((1, 0)));
    assert_eq!(rt; told(study.set(CASE)), ACCEPTED);
    assert_eq!(rt; told(study.close()), ACCEPTED);
    assert!(rt; study.stage() == Stage::Closed);
    // whatever else is wrong with a call
    assert_eq!(rt; told(study.set(CaseData { zones: 0, ..CASE })), Err((1, 0)));
    assert_eq!(rt; told(study.enter(door(499, 1))), Err((1, 0)));
    assert_eq!(rt; told(study.alter(1, door(1500, 1))), Err((1, 0)));
    assert_eq!(rt; told(study.strike(0)), Err((1, 0)));
    assert_eq!(rt; told(study.close()), Err((1, 0)));
    assert!(rt; study.case_data() == Some(CASE));
    assert_eq!(rt;
        (study.count(), width(&study, 1), width(&study, 2)),
        (2, Some(1000), Some(2000))
    );
    assert_eq!(rt; told(study.reopen()), ACCEPTED);
    assert!(rt; study.stage() == Stage::Open);
    assert_eq!(rt; told(study.strike(1)), ACCEPTED);
    assert_eq!(rt; (study.count(), width(&study, 1)), (1, Some(2000)));
}
