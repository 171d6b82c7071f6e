//! The planner's one call: a sheet in, its listing out.

ghost use Rattle.std.specs.Prelude.{◌≡◌, nat_eq};
ghost use Rattle.kinds.specs.Stands.{stand_rules, stand_rows};
ghost use Rattle.kinds.specs.Feeders.{feeder_rules, feeder_rows, same_section};
ghost use Rattle.yard.specs.Told.{told};
ghost use Rattle.listings.specs.Laying.{listed_as};
ghost use Rattle.planner.specs.Plan.{planned, plan_into};

use crate::calling::CALLS;
use crate::kind::YardKind;
use crate::kind::choosing::kind_of;
use crate::planning::{KindLists, plan_sheet};
use kinds::feeders::{Feeders, Section};
use kinds::stands::Stands;
use listings::listing::FULL_LENGTH;
use yard::full::{CELLS, STEPS};
use yard::refusal::Refusal;
use yard::run::Answer;

/// Writes the listing of a sheet's run, or the line that says where the sheet is wrong, and answers how many bytes it has.
pub fn plan(sheet: &[u8], listing: &mut [u8]) -> Result<usize, Refusal>
    ensures { listed_as (told result) listing.new ≡ plan_into sheet.now listing.old }
{
    if listing.len() < FULL_LENGTH {
        return Err(Refusal::ResultTooShort);
    }
    match kind_of(sheet) {
        YardKind::Stands => plan_stands(sheet, listing),
        YardKind::Feeders => plan_feeders(sheet, listing),
    }
}

// Plans a sheet of stands with lists of stands. Each kind makes its own lists: an array of a type parameter's values has no bound on its size, which a proof needs.
fn plan_stands(sheet: &[u8], listing: &mut [u8]) -> Result<usize, Refusal>
    ensures { listed_as (told result) listing.new ≡ planned stand_rules stand_rows nat_eq sheet.now listing.old }
{
    let mut values = [0; CELLS];
    let mut lists = KindLists {
        changes: &mut [None; CELLS],
        saved: &mut [0; STEPS],
        answers: &mut [Ok(Answer::Passed); CALLS],
    };
    plan_sheet::<Stands>(sheet, &mut values, &mut lists, listing)
}

// Plans a sheet of feeders with lists of sections.
fn plan_feeders(sheet: &[u8], listing: &mut [u8]) -> Result<usize, Refusal>
    ensures { listed_as (told result) listing.new ≡ planned feeder_rules feeder_rows same_section sheet.now listing.old }
{
    let unnamed = Section { load: 0, limit: 0 };
    let mut values = [unnamed; CELLS];
    let mut lists = KindLists {
        changes: &mut [None; CELLS],
        saved: &mut [unnamed; STEPS],
        answers: &mut [Ok(Answer::Passed); CALLS],
    };
    plan_sheet::<Feeders>(sheet, &mut values, &mut lists, listing)
}
