//! Spot, the second stage: chosen moves make special clusters.

ghost use Rattle.std.specs.Prelude.{◌≡◌, ◌<◌, ◌≤◌, [], length, replicate, IfSome};
ghost use Rattle.arrayvec.specs.ArrayVec.{array_vec_len};
ghost use Rattle.dealing.specs.Clustering.{roots_in, cell_total, named_by, named_by_all, move_total, Continues};
ghost use Rattle.dealing.specs.Counting.{Specials, with_one};
ghost use Rattle.dealing.specs.Examining.{AllBelow};
ghost use Rattle.dealing.specs.Special.{cells_known, sizes_in};
ghost use Rattle.dealing.specs.Stages.{clusters_of, spot_one, spot as spotted};

use crate::clustering::Clustering;
use crate::special::Special;
use arrayvec::ArrayVec;
use yard::batch::Move;
use yard::full::CHOICES;

impl Clustering<'_> {
    /// Spot: takes the choices in order. The special clusters that they make are returned.
    pub(crate) fn spot(&mut self, choices: &[u16]) -> ArrayVec<Special, CHOICES>
        requires chosen { AllBelow (move_total self.old) choices.now }
        requires few { length choices.now ≤ 64 }
        ensures spotted { clusters_of (roots_in self.new) (cells_known result.items)
            ≡ spotted (named_by_all self.old) choices.now (clusters_of (roots_in self.old) []) }
        ensures special { Specials (cell_total self.old) (cells_known result.items) }
        ensures sizes { sizes_in result.items ≡ replicate (length result.items) 0 }
        ensures same { Continues self.old self.new }
    {
        let mut special = ArrayVec::new();
        let mut hit = [false; CHOICES];
        for choice in choices {
            let found = self.prepared.moves[usize::from(*choice)];
            let hit = &mut hit[..special.len()];
            if let Some(cell) = self.spot_move(found, &special, hit) {
                special.push(Special {
                    cell: cell as u16,
                    size: 0,
                });
            }
        }
        special
    }

    // Joins the clusters of a chosen move to a special one, if it has an active cell and touches no special cluster: its first active cell is then returned.
    fn spot_move(&mut self, found: Move, special: &[Special], hit: &mut [bool]) -> Option<usize>
        requires special { Specials (cell_total self.old) (cells_known special.now) }
        requires room { length hit.old ≡ length special.now }
        ensures spotted { clusters_of (roots_in self.new) (with_one (cells_known special.now) result)
            ≡ spot_one (named_by self.old found) (clusters_of (roots_in self.old) (cells_known special.now)) }
        ensures within { IfSome result (λ cell. cell < cell_total self.old) }
        ensures same { Continues self.old self.new }
    {
        let first = self.prepared.cells_of(found).first()?;
        if self.hits(found, special, hit) > 0 {
            return None;
        }
        self.join_cells(found);
        Some(first)
    }
}
