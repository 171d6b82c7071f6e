//! What a listing is made from.

use dealing::opening::Opening;
use yard::batch::Move;
use yard::run::{LaneRow, Outcome};

pub(crate) mod checking;
pub(crate) mod writing;

/// An opening, the lists of its run, and the values that its cells had at open. All of them are only read.
#[derive(Clone, Copy)]
pub struct RunRecord<'a, V: Copy> {
    pub opening: Opening,
    pub moves: &'a [Move],
    pub line_up: &'a [u16],
    pub lanes: &'a [LaneRow],
    pub outcomes: &'a [Outcome],
    pub values: &'a [V],
}
