//! A batch whose active cells are known: what the stages after prepare only read.

ghost use Rattle.std.specs.Prelude.{◌≤◌, length};

use yard::batch::{Move, Step};

pub mod naming;

/// The active cells that the steps of one move name. `active` says of each cell whether it is.
#[derive(Clone, Copy)]
pub struct ActiveCells<'a> {
    pub active: &'a [bool],
    pub steps: &'a [Step],
    ghost few: { length active.now ≤ 1024 },
}

/// The moves of a batch with their steps. `active` says of each cell whether some step writes it.
#[derive(Clone, Copy)]
pub struct Prepared<'a> {
    pub active: &'a [bool],
    pub steps: &'a [Step],
    pub moves: &'a [Move],
    ghost few: { length active.now ≤ 1024 },
    ghost few_moves: { length moves.now ≤ 256 },
}
