//! Questions that alter nothing: the value of a cell, and the moves of a lane.

ghost use Rattle.std.specs.Prelude.{◌≡◌};
ghost use Rattle.yard.specs.Cells.{value_at};
ghost use Rattle.yard.specs.Told.{told};
ghost use Rattle.dealing.specs.Openings.{numbers_in};
ghost use Rattle.running.specs.Lanes.{moves_of_lane, shown_moves};

use crate::lane::Lane;
use dealing::opening::Opening;
use yard::board::Board;
use yard::refusal::Refusal;
use yard::run::LaneRow;

/// The value of a cell.
pub fn look<B: Board>(board: &B, cell: usize) -> Result<B::Value, Refusal>
    ensures { told result ≡ value_at (B.Board.values board.now) cell }
{
    board.get(cell)
}

/// The moves of a lane: the caller's own part of the line-up.
pub fn lane_moves<'a>(
    opening: Opening,
    line_up: &'a [u16],
    lanes: &[LaneRow],
    lane: usize,
) -> Result<&'a [u16], Refusal>
    ensures { shown_moves result ≡ moves_of_lane (numbers_in opening) line_up.now lanes.now lane }
{
    let queues = usize::from(opening.queues());
    if lane > queues {
        return Err(Refusal::NoSuchLane);
    }
    let moves = usize::from(opening.moves());
    if queues >= lanes.len() || moves > line_up.len() {
        return Err(Refusal::NotThisRun);
    }
    let Some(Lane { row }) = Lane::of_row(lanes[lane]) else {
        return Err(Refusal::NotThisRun);
    };
    if row.first > row.end || usize::from(row.end) > moves {
        return Err(Refusal::NotThisRun);
    }
    Ok(row.places(line_up))
}
