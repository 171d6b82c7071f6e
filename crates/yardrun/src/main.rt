//! The program: it reads a sheet from standard input and says what it read, or where the slip is.

#![tactic(auto)]

use desk::lists::Desk;
use desk::lists::laying::lay_out;
use desk::lists::reading::read_onto;
use desk::sheet::read_sheet;
use kinds::feeders::Feeders;
use kinds::stands::Stands;
use planner::kind::YardKind;
use planner::kind::choosing::kind_of;
use sheets::counts::Counts;
use text::slip::Slip;
use yard::kind::Kind;

fn main(rt: HostRuntime) -> anyhow::Result<()> {
    run(&rt)
}

fn run(rt: &HostRuntime) -> anyhow::Result<()> {
    let sheet = read_sheet(rt.stdin(), rt.alloc())?;
    match kind_of(&sheet) {
        YardKind::Stands => tell::<Stands>(rt, "stands", &sheet),
        YardKind::Feeders => tell::<Feeders>(rt, "feeders", &sheet),
    }
}

// Says what the sheet holds, or where it is wrong.
fn tell<K: Kind>(rt: &HostRuntime, kind: &str, sheet: &[u8]) -> anyhow::Result<()> {
    let mut desk = lay_out::<K>(rt.alloc())?;
    match read_onto::<K>(sheet, &mut desk) {
        Ok(counts) => {
            println!(rt; "{kind}, {} cells, share {}", counts.cells, counts.share)?;
            println!(rt; "{} rows", counts.rows)?;
            tell_moves(rt, counts, &desk)?;
            tell_choices(rt, counts, &desk)?;
        }
        Err(fault) => println!(rt; "{}", Slip::from(fault))?,
    }
    Ok(())
}

fn tell_moves<V: Drop>(rt: &HostRuntime, counts: Counts, desk: &Desk<V>) -> anyhow::Result<()> {
    println!(rt; "{} moves, {} steps", counts.moves, counts.steps)?;
    for found in desk.moves.iter().take(usize::from(counts.moves)) {
        print!(rt; "  {}:", found.label)?;
        for step in found.steps(&desk.steps) {
            print!(rt;
                " {} {} {}",
                step.order.letter, step.cell, step.order.number
            )?;
        }
        println!(rt; "")?;
    }
    Ok(())
}

fn tell_choices<V: Drop>(rt: &HostRuntime, counts: Counts, desk: &Desk<V>) -> anyhow::Result<()> {
    print!(rt; "{} choices:", counts.choices)?;
    for choice in desk.choices.iter().take(usize::from(counts.choices)) {
        print!(rt; " {choice}")?;
    }
    println!(rt; "")?;
    Ok(())
}
