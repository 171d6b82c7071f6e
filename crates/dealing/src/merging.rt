//! Merge, the fourth stage: special clusters that share enough of their moves are joined.

ghost use Rattle.std.specs.Prelude.{◌≡◌, ◌+◌, ◌-◌, ◌*◌, ◌<◌, ◌≤◌, length, nat_le};
ghost use Rattle.std.specs.List.{range_with_len};
ghost use Rattle.arrayvec.specs.ArrayVec.{array_vec_len};
ghost use Rattle.dealing.specs.Clustering.{roots_in, move_total, known, sizes, IsAt, GoesOn};
ghost use Rattle.dealing.specs.Counting.{pair_count};
ghost use Rattle.dealing.specs.Stages.{Fused, merge_row, merge as merged};

use crate::clustering::SpecialClusters;
use crate::counting::pair_place;
use crate::special::Special;

impl SpecialClusters<'_> {
    /// Merge: if enough of all moves were skipped, each two special clusters are joined that share enough of theirs.
    pub(crate) fn merge(&mut self, share: u16)
        requires { self.old.skipped ≤ move_total self.old.clusters }
        ensures roots { (f : Fused) → IsAt self.old f → roots_in self.new.clusters ≡ merged share (move_total self.old.clusters) (known self.old) f }
        ensures same { GoesOn self.old self.new }
    {
        if !enough(share, self.clusters.prepared.moves.len(), self.skipped) {
            return;
        }
        // by number: a turn works on the whole value, which a loop over its list would hold
        for i in 0..self.special.len() {
            self.merge_with(share, i);
        }
    }

    // Joins special cluster `i` with each later one that it shares enough moves with.
    fn merge_with(&mut self, share: u16, i: usize)
        requires { i < length (known self.old) }
        ensures roots { roots_in self.new.clusters
            ≡ merge_row share (known self.old) (sizes self.old) (pair_count self.old.pairs.now) i (range_with_len (i + 1) (length (known self.old) - (i + 1))) (roots_in self.old.clusters) }
        ensures sizes { sizes self.new ≡ sizes self.old }
        ensures pairs { self.new.pairs.now ≡ self.old.pairs.now }
        ensures same { GoesOn self.old self.new }
    {
        let one = self.special[i];
        // by number, for the same reason
        for j in i + 1..self.special.len() {
            let other = self.special[j];
            let both = self.pairs[pair_place(i, j)];
            if share_enough(share, one, other, both) {
                self.clusters
                    .join_at(usize::from(one.cell), usize::from(other.cell));
            }
        }
    }
}

// Whether two special clusters share enough moves: `both` touch the two, and were skipped.
fn share_enough(share: u16, one: Special, other: Special, both: u16) -> bool
    ensures { result ≡ nat_le (share * (one.size + other.size + both)) (1000 * both) }
{
    let part = usize::from(both);
    enough(
        share,
        usize::from(one.size) + usize::from(other.size) + part,
        part,
    )
}

// Whether `part` of `all` is at least the share, which is in thousandths.
fn enough(share: u16, all: usize, part: usize) -> bool
    requires all { all < 1000000 }
    requires part { part < 1000000 }
    ensures { result ≡ nat_le (share * all) (1000 * part) }
{
    1000 * part >= usize::from(share) * all
}
