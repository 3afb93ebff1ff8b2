use crate::rows::*;
use crate::samples::*;
use exact::Ends;
use sheet::Line;
use std::process::Abort;
use std::test::Fail;
use walking::Circular;
use zones::{FIRST_ZONE, SECOND_ZONE};

// Both ends round to the printed number: they are at most half a printed unit from it.
fn rounds_to(ends: Ends, printed: u64, unit: u64, half: u64) -> bool {
    let middle = printed.saturating_mul(unit);
    ends.lower.saturating_add(half) >= middle && ends.upper <= middle.saturating_add(half)
}

// Flow and speed are printed in hundredths, durations in tenths of a second.
fn check_row(rt: &impl Abort, row: Row, line: Line) {
    let (_, persons, queue, flow, speed, flow_duration, travel) = row;
    assert_eq!(rt; line.persons, persons);
    assert_eq!(rt; line.queue, queue);
    assert!(rt; rounds_to(line.flow, flow, 1_000_000, 5_000_000));
    assert!(rt; rounds_to(line.speed, speed, 1_000_000, 5_000_000));
    assert!(rt; rounds_to(line.flow_duration, flow_duration, 1_000, 50_000));
    assert!(rt; rounds_to(line.travel, travel, 1_000, 50_000));
}

fn check_rows(rt: &impl Abort, rows: &[Row], lines: &[Line]) -> Result<(), Fail> {
    for row in rows {
        let Some(line) = lines.get(row.0) else {
            return Err(Fail::new("there is no such line"));
        };
        check_row(rt, *row, *line);
    }
    Ok(())
}

// Each zone has a test of its own, so that one can fail without the other.
#[test]
fn first_zone_rounds_to_the_printed_digits(rt: HostRuntime) -> Result<(), Fail> {
    let mut lines = [Line::default(); 45];
    let study = closed(NIGHT, &FIRST_ZONE);
    assert!(rt; study.assess(&Circular, &mut lines).is_ok());
    check_rows(&rt, &FIRST_ROWS, &lines)
}

#[test]
fn second_zone_rounds_to_the_printed_digits(rt: HostRuntime) -> Result<(), Fail> {
    let mut lines = [Line::default(); 21];
    let study = closed(DAY, &SECOND_ZONE);
    assert!(rt; study.assess(&Circular, &mut lines).is_ok());
    check_rows(&rt, &SECOND_ROWS, &lines)
}
