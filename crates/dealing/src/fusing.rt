//! Fuse, the third stage: the clusters of each move are joined, unless it touches two special clusters or more.

ghost use Rattle.std.specs.Prelude.{◌≡◌, ◌≤◌, [], length};
ghost use Rattle.dealing.specs.Clustering.{roots_in, named_by, named_by_all, move_total, known, sizes, IsAt, Fresh, Growable, GoesOn};
ghost use Rattle.dealing.specs.Stages.{Fused, fused_of, fuse_one, fuse as fused};

use crate::clustering::SpecialClusters;
use crate::counting::{count_pairs, grow};
use yard::batch::Move;
use yard::full::CHOICES;

impl SpecialClusters<'_> {
    /// Fuse: takes all moves in batch order.
    pub(crate) fn fuse(&mut self)
        requires { Fresh self.old }
        ensures fused { IsAt self.new (fused (known self.old) (named_by_all self.old.clusters) (fused_of (roots_in self.old.clusters) (sizes self.old) [])) }
        ensures few { self.new.skipped ≤ move_total self.old.clusters }
        ensures same { GoesOn self.old self.new }
    {
        let mut hit = [false; CHOICES];
        let hit = &mut hit[..self.special.len()];
        for found in self.clusters.prepared.moves {
            self.fuse_move(*found, hit);
        }
    }

    // Joins the clusters of a move that touches at most one special cluster, which then grows. Any other is skipped, and counts for each two that it touches.
    fn fuse_move(&mut self, found: Move, hit: &mut [bool])
        requires growable { Growable self.old }
        requires room { length hit.old ≡ length self.old.special.items }
        ensures fused { (f : Fused) → IsAt self.old f → IsAt self.new (fuse_one (known self.old) (named_by self.old.clusters found) f) }
        ensures same { GoesOn self.old self.new }
        ensures long { length hit.new ≡ length hit.old }
    {
        if self.clusters.hits(found, &self.special, hit) > 1 {
            count_pairs(self.pairs, hit);
            self.skipped += 1;
        } else {
            self.clusters.join_cells(found);
            grow(&mut self.special, hit);
        }
    }
}
