//! Opening a run: the batch is checked and dealt, and the lists of the run are filled.

ghost use Rattle.std.specs.Prelude.{◌≡◌, ◌≤◌, length, replicate};
ghost use Rattle.yard.specs.declared.run.Outcome.TheVariants.{NotEnded};
ghost use Rattle.yard.specs.Batches.{listed};
ghost use Rattle.dealing.specs.Dealable.{Dealable, Roomy};
ghost use Rattle.dealing.specs.Lanes.{dealing};
ghost use Rattle.dealing.specs.Lent.{lists_in, SameRunLists, SameWorkLists};
ghost use Rattle.dealing.specs.Opening.{opened, filled, open_into, roomy};
ghost use Rattle.dealing.specs.Openings.{told_opening, Sound};

use super::Opening;
use super::checking::check;
use super::lists::{RunLists, WorkLists};
use crate::stages::deal;
use yard::batch::Batch;
use yard::board::Board;
use yard::full::{CELLS, LANES, MOVES, PAIRS};
use yard::kind::Kind;
use yard::refusal::Refusal;
use yard::run::Outcome;

/// Deals a batch for a board, which is only read. The lists of the run are filled; the working lists hold 0 afterwards. A refusal leaves every list as it was.
pub fn open<K: Kind, B: Board<Value = K::Value>>(
    batch: Batch,
    board: &B,
    run: &mut RunLists,
    work: &mut WorkLists,
) -> Result<Opening, Refusal>
    ensures opened { opened (told_opening result) (lists_in run.new work.new)
        ≡ open_into K.Kind.rules (listed batch.entry) (length (B.Board.values board.now)) (lists_in run.old work.old) }
    ensures sound { Sound K.Kind.rules (listed batch.entry) result run.new.line_up.now run.new.lanes.now }
    ensures run { SameRunLists run.old run.new }
    ensures work { SameWorkLists work.old work.new }
{
    let roomy = have_room(run, work);
    check::<K>(batch, roomy, board.count())?;
    let queues = fill::<K>(batch, run, work);
    Ok(Opening {
        cells: batch.cells,
        moves: batch.moves.len() as u16,
        steps: batch.steps.len() as u16,
        queues: queues as u16,
    })
}

// Whether all the lists have their full lengths.
fn have_room(run: &RunLists, work: &WorkLists) -> bool
    ensures { result ≡ roomy (lists_in run.now work.now) }
{
    run.line_up.len() >= MOVES
        && run.lanes.len() >= LANES
        && run.outcomes.len() >= MOVES
        && work.parents.len() >= CELLS
        && work.marks.len() >= CELLS
        && work.pairs.len() >= PAIRS
}

// Deals a batch that can be dealt, in lists of full lengths. How many queues were made is returned.
fn fill<K: Kind>(batch: Batch, run: &mut RunLists, work: &mut WorkLists) -> usize
    requires batch { Dealable (listed batch) }
    requires room { Roomy (lists_in run.old work.old) }
    ensures queues { result ≡ (dealing K.Kind.rules (listed batch.entry)).queues }
    ensures few { result ≤ 256 }
    ensures filled { lists_in run.new work.new
        ≡ filled (listed batch.entry) (dealing K.Kind.rules (listed batch.entry)) (lists_in run.old work.old) }
    ensures run { SameRunLists run.old run.new }
    ensures work { SameWorkLists work.old work.new }
{
    let cells = usize::from(batch.cells);
    let mut active = [false; CELLS];
    let queues = deal::<K>(
        batch,
        &mut active[0..cells],
        run,
        &mut work.parents[0..cells],
        &mut work.marks[0..cells],
        &mut work.pairs[0..PAIRS],
    );
    let moves = batch.moves.len();
    run.outcomes[0..moves].fill(Outcome::NotEnded);
    queues
}
