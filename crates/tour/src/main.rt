#![tactic(auto)]

// Shows, step by step, what the library does so far.
use std::io;
use study::Study;

mod calls;
mod findings;
mod print;
mod walking_tour;

fn main(rt: HostRuntime) -> io::Result<()> {
    walking_tour::run(&rt)?;
    let mut study = Study::new();
    calls::run(&rt, &mut study)?;
    findings::run(&rt, &mut study)
}
