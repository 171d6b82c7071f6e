//! The program: a sheet on standard input, its listing on standard output.

#![tactic(auto)]

use desk::sheet::read_sheet;
use listings::listing::FULL_LENGTH;
use planner::plan::plan;

fn main(rt: HostRuntime) -> anyhow::Result<()> {
    run(&rt)
}

fn run(rt: &HostRuntime) -> anyhow::Result<()> {
    let sheet = read_sheet(rt.stdin(), rt.alloc())?;
    let mut listing = vec![in rt.alloc(); 0; FULL_LENGTH]?;
    match plan(&sheet, &mut listing) {
        Ok(count) => {
            listing.truncate(count);
            rt.write_all(&listing)?;
        }
        // not with a listing of this length
        Err(refusal) => println!(rt; "N {} 0 0", refusal.number())?,
    }
    Ok(())
}
