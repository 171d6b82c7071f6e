//! The most that a sheet may have, and the full lengths of lists: enough for every sheet.

/// Cells, and lists with an entry for each cell.
pub const CELLS: usize = 1024;

/// Moves, and lists with an entry for each move.
pub const MOVES: usize = 256;

/// Steps of one move.
pub const MOVE_STEPS: u16 = 8;

/// The share of merging, in thousandths.
pub const SHARE: u16 = 1000;

/// Steps, and lists with an entry for each step.
pub const STEPS: usize = 1024;

pub const CHOICES: usize = 64;

/// The rest list, and as many queues as there can be moves.
pub const LANES: usize = 257;

/// Pair counts: a place for each two of 64 special clusters.
pub const PAIRS: usize = 4096;
