//! Allocate, the last stage: the lane of each move.

ghost use Rattle.std.specs.Prelude.{◌≡◌, ◌≤◌, length};
ghost use Rattle.arrayvec.specs.ArrayVec.{array_vec_len};
ghost use Rattle.clusters.specs.Roots.{roots_of};
ghost use Rattle.dealing.specs.Clustering.{roots_in, cell_total, named_by, named_by_all, move_total};
ghost use Rattle.dealing.specs.Lanes.{all_at, allocated, dealt_of};
ghost use Rattle.dealing.specs.Prepared.{cells_in, cell_count};
ghost use Rattle.dealing.specs.Touched.{key_in, key_touched, RootBelow};

use crate::clustering::Clustering;
use crate::prepared::ActiveCells;
use crate::rooting::root;
use crate::touched::Touched;
use arrayvec::ArrayVec;
use yard::batch::Move;
use yard::full::{CELLS, MOVES};

/// The lane of each move, and how many queues were made.
#[derive(Drop)]
pub struct Allocation {
    pub lane_of: ArrayVec<u16, MOVES>,
    pub queues: usize,
}

impl Clustering<'_> {
    /// Allocate: takes the moves in batch order and finds the lane of each.
    pub(crate) fn allocate(&self) -> Allocation
        ensures dealt { dealt_of result.lane_of.items result.queues ≡ allocated (roots_in self.now) (named_by_all self.now) }
        ensures few { result.queues ≤ move_total self.now }
    {
        let mut lane_of = ArrayVec::new();
        let mut queue_of = [None::<u16>; CELLS];
        let mut free_queue = None::<u16>;
        let mut made: u16 = 0;
        for found in self.prepared.moves {
            let lane = match self.touched(*found) {
                // the rest list is lane 0, the first in the list of lanes
                Touched::Several => 0,
                Touched::One(root) => match queue_of[root] {
                    Some(queue) => queue,
                    None => {
                        made += 1;
                        queue_of[root] = Some(made);
                        made
                    }
                },
                Touched::Nothing => match free_queue {
                    Some(queue) => queue,
                    None => {
                        made += 1;
                        free_queue = Some(made);
                        made
                    }
                },
            };
            lane_of.push(lane);
        }
        Allocation {
            lane_of,
            queues: usize::from(made),
        }
    }

    // What a move touches.
    fn touched(&self, found: Move) -> Touched
        ensures touched { key_touched result ≡ key_in (roots_in self.now) (named_by self.now found) }
        ensures within { RootBelow (cell_total self.now) result }
    {
        let cells = self.prepared.cells_of(found);
        match cells.first() {
            None => Touched::Nothing,
            Some(first) => {
                let top = root(self.parents, first);
                if all_at(self.parents, cells, top) {
                    Touched::One(top)
                } else {
                    Touched::Several
                }
            }
        }
    }
}

// Whether all the cells have the root `top`.
fn all_at(parents: &[u16], cells: ActiveCells, top: usize) -> bool
    requires { length parents.now ≡ cell_count cells }
    ensures { result ≡ all_at (roots_of parents.now) top (cells_in cells.entry) }
{
    cells.steps.iter().all(|step| cells
        .counted(*step)
        .is_none_or(|cell| root(parents, cell) == top))
}
