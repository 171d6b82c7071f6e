//! The clusters of a batch while its moves join them: what the stages after prepare work on.

ghost use Rattle.std.specs.Prelude.{◌≡◌, length, replicate};
ghost use Rattle.dealing.specs.Counting.{Specials};
ghost use Rattle.dealing.specs.Special.{cells_known};

use crate::prepared::Prepared;
use crate::special::Special;
use arrayvec::ArrayVec;
use yard::full::CHOICES;

/// The parents of the cells, and marks for them, which are clear but while a move is examined.
#[derive(Drop)]
pub struct Clustering<'a> {
    pub parents: &'a mut [u16],
    pub marks: &'a mut [u8],
    pub prepared: Prepared<'a>,
    ghost long: { length parents.now ≡ length prepared.active.now },
    ghost clear: { marks.now ≡ replicate (length parents.now) 0 },
}

/// Clusters with the special ones among them, the counts of the moves that touch each two of these, and how many moves were skipped.
#[derive(Drop)]
pub struct SpecialClusters<'a> {
    pub clusters: Clustering<'a>,
    pub special: ArrayVec<Special, CHOICES>,
    pub pairs: &'a mut [u16],
    pub skipped: usize,
    ghost known: { Specials (length clusters.parents.now) (cells_known special.items) },
    ghost paired: { length pairs.now ≡ 4096 },
}
