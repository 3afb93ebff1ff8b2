// The closed study assessed: by the circular, under a slower walk, and with a lobby narrowed.
use super::print;
use network::Draft;
use sheet::Line;
use std::io;
use study::{Call, Study};
use walking::{Circular, SlowerWalk};
use zones::SECOND_ZONE;

pub fn run(rt: &HostRuntime, study: &mut Study) -> io::Result<()> {
    let slower = SlowerWalk {
        below: Circular,
        per_mille: 800,
    };
    let mut lines = [Line::default(); 21];
    println!(rt; "Its worksheet and finding by the circular")?;
    let found = study.assess(&Circular, &mut lines);
    print::worksheet(rt, &lines)?;
    print::outcome(rt, "assess", found.map(Some))?;
    println!(rt; "Its worksheet and finding under a slower walk of 800 per mille")?;
    let found = study.assess(&slower, &mut lines);
    print::worksheet(rt, &lines)?;
    print::outcome(rt, "assess", found.map(Some))?;
    narrow_lobby(rt, study, &mut lines)
}

// The second path on deck 8, from 2,500 mm to 1,000.
fn narrow_lobby(rt: &HostRuntime, study: &mut Study, lines: &mut [Line]) -> io::Result<()> {
    let narrowed = Draft {
        width: 1_000,
        ..SECOND_ZONE[20]
    };
    println!(rt; "The lobby narrowed: its second path 1,000 mm wide")?;
    print::answer(rt, "reopen", study.reopen())?;
    print::answer(rt, "alter element 21", study.alter(21, narrowed))?;
    print::answer(rt, "close", study.close())?;
    let outcome = study.perform(Call::Assess(&Circular), lines);
    print::outcome(rt, "assess by the circular", outcome)
}
