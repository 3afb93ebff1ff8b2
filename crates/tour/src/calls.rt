// A study built by calls: the second zone of the circular's example.
use super::print;
use network::{CaseData, Draft};
use std::io;
use study::Study;
use zones::SECOND_ZONE;

const DAY: CaseData = CaseData {
    case_number: 2,
    ship_kind: 2,
    zones: 3,
    embarkation: 1800,
};

// A corridor that is too narrow, whatever else it is.
const NARROW: Draft = Draft {
    kind: 1,
    from: 10,
    to: 0,
    width: 450,
    length: 9_500,
    persons: 0,
};

pub fn run(rt: &HostRuntime, study: &mut Study) -> io::Result<()> {
    println!(rt; "A study of the second zone of the circular's example")?;
    enter_zone(rt, study)?;
    print::answer(rt, "enter a corridor 450 mm wide", study.enter(NARROW))?;
    print::answer(rt, "close without case data", study.close())?;
    print::answer(rt, "set the case data of a day case", study.set(DAY))?;
    settle_zone(rt, study)?;
    println!(rt; "  it is closed with {} elements", study.count())
}

// Enters all elements, as many as there are.
fn enter_zone(rt: &HostRuntime, study: &mut Study) -> io::Result<()> {
    let accepted = SECOND_ZONE
        .iter()
        .map(|draft| study.enter(*draft))
        .filter(|entered| entered.is_ok())
        .count();
    println!(rt; "  enter {accepted} elements: accepted")
}

// Takes out the last path and enters it again, narrows it and widens it, and closes.
fn settle_zone(rt: &HostRuntime, study: &mut Study) -> io::Result<()> {
    let path = SECOND_ZONE[20];
    let narrowed = Draft {
        width: 2_000,
        ..path
    };
    print::answer(
        rt,
        "strike element 21, the second path on deck 8",
        study.strike(21),
    )?;
    print::answer(rt, "enter it again", study.enter(path))?;
    print::answer(
        rt,
        "alter it to a width of 2,000 mm",
        study.alter(21, narrowed),
    )?;
    print::answer(rt, "alter it back", study.alter(21, path))?;
    print::answer(rt, "close", study.close())?;
    print::answer(
        rt,
        "enter another path into the closed study",
        study.enter(path),
    )?;
    print::answer(rt, "reopen", study.reopen())?;
    print::answer(rt, "close again", study.close())
}
