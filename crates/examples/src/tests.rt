use curves::Column;
use exact::Ends;
use reading::{SourceCorridor, SourceFigures};
use std::process::Abort;
use std::test::Fail;
use walking::{Circular, RuleBook, SlowerWalk, WalkingTables};

fn check_ends(rt: &impl Abort, found: Ends, lower: u64, upper: u64) {
    assert_eq!(rt; found.lower, lower);
    assert_eq!(rt; found.upper, upper);
}

#[test]
fn questions_out_of_range_are_answered_as_for_the_nearest_number(rt: HostRuntime) {
    assert_eq!(rt; Circular.rows(0), 5);
    assert_eq!(rt; Circular.rows(255), 3);
    assert_eq!(rt; Circular.row(0, 99).2, 100);
    assert_eq!(rt; Circular.row(200, 1).0, 430);
    assert_eq!(rt; Circular.response(0), 600);
    assert_eq!(rt; Circular.response(9), 300);
    assert_eq!(rt; Circular.factor(0), 23);
    assert_eq!(rt; Circular.factor(255), 16);
    assert_eq!(rt; Circular.limit(0, 20), 60);
    assert_eq!(rt; Circular.limit(7, 21), 80);
    assert_eq!(rt; Circular.limit(2, 3), 60);
}

#[test]
fn a_per_mille_above_a_thousand_changes_nothing(rt: HostRuntime) {
    let book = SlowerWalk {
        below: Circular,
        per_mille: 4_000_000_000,
    };
    assert_eq!(rt; book.row(3, 2).2, 550);
    let still = SlowerWalk {
        below: Circular,
        per_mille: 0,
    };
    assert_eq!(rt; still.row(3, 2).2, 100);
}

#[test]
fn curves_are_read_at_and_past_their_rows(rt: HostRuntime) {
    check_ends(
        &rt,
        reading::read_column(&Circular, 2, Column::Speed, 650_000_000),
        1_200_000_000,
        1_200_000_000,
    );
    check_ends(
        &rt,
        reading::read_column(&Circular, 2, Column::Speed, 975_000_000),
        935_000_000,
        935_000_000,
    );
    check_ends(
        &rt,
        reading::read_column(&Circular, 2, Column::Speed, u64::MAX),
        670_000_000,
        670_000_000,
    );
    check_ends(
        &rt,
        reading::read_column(&Circular, 1, Column::Flow, 0),
        0,
        0,
    );
    // one billionth past the row, the speed falls by 450/560 of a billionth
    check_ends(
        &rt,
        reading::read_column(&Circular, 3, Column::Speed, 540_000_001),
        999_999_999,
        1_000_000_000,
    );
    let specific_flow = Ends {
        lower: 975_000_000,
        upper: 975_000_001,
    };
    check_ends(
        &rt,
        reading::read_falling(&Circular, 2, specific_flow),
        934_999_999,
        935_000_000,
    );
}

fn figures(persons: u32, width: u32, length: u32) -> Result<SourceFigures, Fail> {
    let Some(corridor) = SourceCorridor::new(persons, width, length) else {
        return Err(Fail::new("a number is out of range"));
    };
    Ok(corridor.figures(&Circular))
}

#[test]
fn source_corridors_give_the_figures_worked_by_hand(rt: HostRuntime) -> Result<(), Fail> {
    let few = figures(11, 900, 13_000)?;
    check_ends(&rt, few.density, 940_170_940, 940_170_941);
    check_ends(&rt, few.flow, 768_928_571, 768_928_572);
    check_ends(&rt, few.speed, 1_033_363_858, 1_033_363_859);
    let crowd = figures(36, 1_000, 10_000)?;
    check_ends(&rt, crowd.flow, 320_000_000, 320_000_000);
    check_ends(&rt, crowd.speed, 100_000_000, 100_000_000);
    Ok(())
}

#[test]
fn source_corridors_out_of_range_are_none(rt: HostRuntime) {
    assert!(rt; SourceCorridor::new(8_000, 500, 100).is_some());
    assert!(rt; SourceCorridor::new(0, 10_000, 100_000).is_some());
    assert!(rt; SourceCorridor::new(8_001, 500, 100).is_none());
    assert!(rt; SourceCorridor::new(1, 499, 100).is_none());
    assert!(rt; SourceCorridor::new(1, 10_001, 100).is_none());
    assert!(rt; SourceCorridor::new(1, 500, 99).is_none());
    assert!(rt; SourceCorridor::new(1, 500, 100_001).is_none());
}
