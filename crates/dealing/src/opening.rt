//! What open tells of a run.

ghost use Rattle.std.specs.Prelude.{◌≤◌};

pub mod checking;
pub mod lists;
pub mod making;
pub mod telling;

/// How many cells, moves, steps and queues a run has. Only open makes one, so that its numbers are always in range.
#[derive(Clone, Copy, Debug, PartialEq)]
pub struct Opening {
    cells: u16,
    moves: u16,
    steps: u16,
    queues: u16,
    ghost few_cells: { cells ≤ 1024 },
    ghost few_moves: { moves ≤ 256 },
    ghost few_steps: { steps ≤ 1024 },
    ghost few_queues: { queues ≤ 256 },
}
