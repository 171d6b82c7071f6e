//! Whether lists and a board are those of a run, as far as a listing needs it.

ghost use Rattle.std.specs.Prelude.{◌≡◌};
ghost use Rattle.listings.specs.Listings.{row_within, rows_within, long_enough, is_this_run};
ghost use Rattle.listings.specs.Lists.{run_in};

use super::RunRecord;
use dealing::fitting::all_below;
use yard::board::Board;
use yard::kind::Kind;
use yard::part::part;
use yard::run::LaneRow;

/// Whether the lists and the board are long enough, and no lane and no place lies outside the run.
pub(crate) fn is_this_run<K: Kind, B: Board<Value = K::Value>>(
    run: RunRecord<K::Value>,
    board: &B,
) -> bool
    ensures { result ≡ is_this_run (run_in run.entry (B.Board.values board.now)) }
{
    let moves = usize::from(run.opening.moves());
    let lanes = usize::from(run.opening.queues()) + 1;
    is_long_enough::<K, B>(run, board)
        && rows_within(part(run.lanes, 0, lanes), moves)
        && all_below(part(run.line_up, 0, moves), moves)
}

fn is_long_enough<K: Kind, B: Board<Value = K::Value>>(run: RunRecord<K::Value>, board: &B) -> bool
    ensures { result ≡ long_enough (run_in run.entry (B.Board.values board.now)) }
{
    let moves = usize::from(run.opening.moves());
    let cells = usize::from(run.opening.cells());
    run.moves.len() >= moves
        && run.line_up.len() >= moves
        && run.outcomes.len() >= moves
        && run.lanes.len() > usize::from(run.opening.queues())
        && run.values.len() >= cells
        && board.count() >= cells
}

fn rows_within(rows: &[LaneRow], end: usize) -> bool
    ensures { result ≡ rows_within end rows.now }
{
    rows.iter().all(|row| is_within(*row, end))
}

// Whether a lane begins at or before its end, and ends at or before `end`.
fn is_within(row: LaneRow, end: usize) -> bool
    ensures { result ≡ row_within end row }
{
    row.first <= row.end && usize::from(row.end) <= end
}
