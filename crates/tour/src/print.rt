// What the steps of the tour print.
use network::Refusal;
use reading::SourceFigures;
use sheet::Line;
use std::io;
use verdicts::Finding;
use walking::{RuleBook, WalkingTables};

// The rows of all four curves, and the door flow.
pub fn tables<T: WalkingTables>(rt: &HostRuntime, tables: &T) -> io::Result<()> {
    for curve in 1..5u8 {
        // over row numbers: a rule book answers one row at a time
        for i in 0..tables.rows(curve) {
            let (entry, flow, speed) = tables.row(curve, i);
            println!(rt; "  curve {curve}, row {i}: entry {entry}, flow {flow}, speed {speed}")?;
        }
    }
    let door = tables.door_flow();
    println!(rt; "  door flow {door}")
}

// Response and factor of each case, and the limits on both sides of three zones.
pub fn rules<B: RuleBook>(rt: &HostRuntime, book: &B) -> io::Result<()> {
    for case_number in 1..5u8 {
        let response = book.response(case_number);
        let factor = book.factor(case_number);
        println!(rt; "  case {case_number}: response {response} s, factor {factor} tenths")?;
    }
    for ship_kind in 1..3u8 {
        let three = book.limit(ship_kind, 3);
        let four = book.limit(ship_kind, 4);
        println!(rt; "  ship kind {ship_kind}: limit {three} min with 3 zones, {four} min with 4")?;
    }
    Ok(())
}

// Field by field, here and for lines: each has a name and a unit of its own in what the tour shows.
pub fn figures(rt: &HostRuntime, figures: SourceFigures) -> io::Result<()> {
    let SourceFigures {
        density,
        specific_flow,
        flow,
        speed,
    } = figures;
    println!(rt; "  density: {density} billionths")?;
    println!(rt; "  specific flow: {specific_flow} billionths")?;
    println!(rt; "  flow: {flow} billionths")?;
    println!(rt; "  speed: {speed} billionths")
}

// What a call answered: a finding, acceptance without one, or a refusal.
pub fn outcome(
    rt: &HostRuntime,
    call: &str,
    outcome: Result<Option<Finding>, Refusal>,
) -> io::Result<()> {
    match outcome {
        Ok(Some(finding)) => println!(rt; "  {finding}"),
        Ok(None) => println!(rt; "  {call}: accepted"),
        Err(refusal) => println!(rt; "  {call}: {refusal}"),
    }
}

// The same of a call that has no finding.
pub fn answer(rt: &HostRuntime, call: &str, answer: Result<(), Refusal>) -> io::Result<()> {
    outcome(rt, call, answer.map(|()| None))
}

// A line for each element: persons, queue, flow and speed in billionths, durations in microseconds.
pub fn worksheet(rt: &HostRuntime, lines: &[Line]) -> io::Result<()> {
    for (index, line) in lines.iter().enumerate() {
        let number = index + 1;
        let persons = line.persons;
        let queue = if line.queue { "queue" } else { "no queue" };
        println!(rt; "  element {number}: {persons} persons, {queue}")?;
        println!(rt; "    flow {}", line.flow)?;
        println!(rt; "    speed {}", line.speed)?;
        println!(rt; "    flow duration {}", line.flow_duration)?;
        println!(rt; "    travel {}", line.travel)?;
    }
    Ok(())
}
