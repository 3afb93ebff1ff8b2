use crate::samples::*;
use exact::Ends;
use network::{CaseData, Draft, Refusal};
use sheet::Line;
use study::Study;
use verdicts::{Finding, Verdict};
use walking::{Circular, SlowerWalk};
use zones::{FIRST_ZONE, SECOND_ZONE};

// A finding, or the number and the place of a refusal.
type Told = Result<Finding, (u8, u32)>;

// As the tests of calls have it: a crate for both would be longer.
fn told(found: Result<Finding, Refusal>) -> Told {
    found.map_err(|refusal| (refusal.number(), refusal.place()))
}

fn finding(verdict: Verdict, lower: u64, upper: u64, governing: u8) -> Told {
    let time = Ends { lower, upper };
    Ok(Finding {
        verdict,
        time,
        governing,
    })
}

fn assessed(study: &Study) -> Told {
    let mut lines = [Line::default(); 64];
    told(study.assess(&Circular, &mut lines))
}

// Each zone has a test of its own, whose name says what governs it.
#[test]
fn first_zone_is_governed_by_the_last_stair_up(rt: HostRuntime) {
    assert_eq!(rt;
        assessed(&closed(NIGHT, &FIRST_ZONE)),
        finding(Verdict::Meets, 192_069_501, 192_069_509, 28)
    );
}

#[test]
fn second_zone_is_governed_by_stair_c_of_deck_7(rt: HostRuntime) {
    assert_eq!(rt;
        assessed(&closed(DAY, &SECOND_ZONE)),
        finding(Verdict::Meets, 175_252_187, 175_252_191, 14)
    );
}

#[test]
fn slower_walk_takes_longer(rt: HostRuntime) {
    let slower = SlowerWalk {
        below: Circular,
        per_mille: 800,
    };
    let mut lines = [Line::default(); 21];
    let found = closed(DAY, &SECOND_ZONE).assess(&slower, &mut lines);
    assert_eq!(rt;
        told(found),
        finding(Verdict::Meets, 183_731_428, 183_731_432, 14)
    );
}

#[test]
fn narrowed_lobby_governs(rt: HostRuntime) {
    let path = Draft {
        kind: 1,
        from: 10,
        to: 0,
        width: 1_000,
        length: 7_500,
        persons: 0,
    };
    let mut study = closed(DAY, &SECOND_ZONE);
    assert!(rt; study.reopen().is_ok());
    assert!(rt; study.alter(21, path).is_ok());
    assert!(rt; study.close().is_ok());
    assert_eq!(rt;
        assessed(&study),
        finding(Verdict::Meets, 188_867_914, 188_867_918, 20)
    );
}

// A source corridor of 900 by 13,000 mm to the station.
fn corridor(persons: u32) -> Draft {
    Draft {
        kind: 1,
        from: 0,
        to: 0,
        width: 900,
        length: 13_000,
        persons,
    }
}

#[test]
fn launching_above_half_an_hour_exceeds(rt: HostRuntime) {
    let half_an_hour = CaseData {
        embarkation: 1_800,
        ..NIGHT
    };
    let longer = CaseData {
        embarkation: 1_801,
        ..NIGHT
    };
    let drafts = [corridor(11)];
    assert_eq!(rt;
        assessed(&closed(half_an_hour, &drafts)),
        finding(Verdict::Meets, 26_885_893, 26_885_895, 1)
    );
    assert_eq!(rt;
        assessed(&closed(longer, &drafts)),
        finding(Verdict::Exceeds, 26_885_893, 26_885_895, 1)
    );
}

#[test]
fn too_few_lines_are_refused_and_left_alone(rt: HostRuntime) {
    let marked = Line {
        persons: 7,
        ..Line::default()
    };
    let mut lines = [marked; 20];
    assert_eq!(rt;
        told(closed(DAY, &SECOND_ZONE).assess(&Circular, &mut lines)),
        Err((13, 0))
    );
    assert_eq!(rt; lines[0].persons, 7);
    assert_eq!(rt; lines[19].persons, 7);
}

#[test]
fn lines_past_the_elements_are_left_alone(rt: HostRuntime) {
    let marked = Line {
        persons: 7,
        ..Line::default()
    };
    let mut lines = [marked; 22];
    assert!(rt;
        closed(DAY, &SECOND_ZONE)
            .assess(&Circular, &mut lines)
            .is_ok()
    );
    assert_eq!(rt; lines[20].persons, 332);
    assert_eq!(rt; lines[21].persons, 7);
}

// One person in 100 m of a corridor 10 m wide has a flow of 13,000,000 billionths; each of two equal doors gets half,
// and the first the person.
#[test]
fn thin_flow_is_refused_and_clears_the_lines(rt: HostRuntime) {
    let wide = Draft {
        kind: 1,
        from: 0,
        to: 1,
        width: 10_000,
        length: 100_000,
        persons: 1,
    };
    let door = Draft {
        kind: 2,
        from: 1,
        to: 0,
        width: 5_000,
        length: 0,
        persons: 0,
    };
    let study = closed(DAY, &[wide, door, door]);
    let marked = Line {
        persons: 7,
        ..Line::default()
    };
    let mut lines = [marked; 4];
    assert_eq!(rt; told(study.assess(&Circular, &mut lines)), Err((14, 2)));
    assert_eq!(rt; lines[0].persons, 0);
    assert_eq!(rt; lines[2].persons, 0);
    assert_eq!(rt; lines[3].persons, 7);
}

#[test]
fn open_studies_are_not_assessed(rt: HostRuntime) {
    assert_eq!(rt; assessed(&Study::new()), Err((1, 0)));
}

#[test]
fn verdicts_are_filed_by_number(rt: HostRuntime) {
    assert_eq!(rt; u8::from(Verdict::Meets), 1);
    assert_eq!(rt; u8::from(Verdict::Exceeds), 2);
    assert_eq!(rt; u8::from(Verdict::Undecided), 3);
}
