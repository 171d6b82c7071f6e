//! The lists that open is lent: those of the run, and those that it only works with.

use yard::run::{LaneRow, Outcome};

/// The lists of a run: its line-up, a row for each lane, and how each move stands.
#[derive(Drop)]
pub struct RunLists<'a> {
    pub line_up: &'a mut [u16],
    pub lanes: &'a mut [LaneRow],
    pub outcomes: &'a mut [Outcome],
}

/// Lists to work with: the parents of the cells, their marks, and the counts of pairs of special clusters.
#[derive(Drop)]
pub struct WorkLists<'a> {
    pub parents: &'a mut [u16],
    pub marks: &'a mut [u8],
    pub pairs: &'a mut [u16],
}
