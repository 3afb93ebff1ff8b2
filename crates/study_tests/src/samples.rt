use network::{CaseData, Draft, Refusal};
use study::Study;

pub const CASE: CaseData = CaseData {
    case_number: 1,
    ship_kind: 1,
    zones: 5,
    embarkation: 1800,
};

// A source door to the assembly station, by its width and its persons.
pub fn door(width: u32, persons: u32) -> Draft {
    Draft {
        kind: 2,
        from: 0,
        to: 0,
        width,
        length: 0,
        persons,
    }
}

// A source corridor with five persons, to a point.
pub fn corridor(to: u8) -> Draft {
    Draft {
        kind: 1,
        from: 0,
        to,
        width: 1000,
        length: 10_000,
        persons: 5,
    }
}

// A stair down between two points.
pub fn stair(from: u8, to: u8) -> Draft {
    Draft {
        kind: 3,
        from,
        to,
        width: 1400,
        length: 4670,
        persons: 0,
    }
}

// A study with doors of these widths, in this order.
pub fn doors(widths: &[u32]) -> Study {
    let mut study = Study::new();
    for width in widths {
        let _ = study.enter(door(*width, 100));
    }
    study
}

// The width of the element with this number.
pub fn width(study: &Study, number: u32) -> Option<u32> {
    study.element(number).map(|element| element.width)
}

// What a call answered, with a refusal by its number and place, as the rules list them. The tests of findings have the
// same three lines: a crate for both would be longer.
pub fn told(answer: Result<(), Refusal>) -> Result<(), (u8, u32)> {
    answer.map_err(|refusal| (refusal.number(), refusal.place()))
}
