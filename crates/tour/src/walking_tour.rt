// Tables, rules, and a corridor in which persons stand at the start.
use super::print;
use reading::SourceCorridor;
use std::io;
use walking::{Circular, SlowerWalk, WalkingTables};

pub fn run(rt: &HostRuntime) -> io::Result<()> {
    let slower = SlowerWalk {
        below: Circular,
        per_mille: 800,
    };
    println!(rt; "The circular's walking tables, in thousandths")?;
    print::tables(rt, &Circular)?;
    println!(rt; "The circular's rules")?;
    print::rules(rt, &Circular)?;
    println!(rt; "11 persons in a corridor of 900 by 13,000 mm, by the circular")?;
    show_corridor(rt, &Circular)?;
    println!(rt; "The same under a slower walk of 800 per mille")?;
    show_corridor(rt, &slower)
}

fn show_corridor<T: WalkingTables>(rt: &HostRuntime, tables: &T) -> io::Result<()> {
    match SourceCorridor::new(11, 900, 13_000) {
        Some(corridor) => print::figures(rt, corridor.figures(tables)),
        None => println!(rt; "  a number is out of range"),
    }
}
