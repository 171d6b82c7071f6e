//! Sizes of special clusters, and counts of their pairs.

ghost use Rattle.std.specs.Prelude.{◌≡◌, ℕ, ◌<◌, ◌≤◌, false, ◌&&◌, length, ◌==◌, slice_index_or};
ghost use Rattle.dealing.specs.Counting.{pair_place, pair_count, Counted, both_hit};
ghost use Rattle.dealing.specs.Examining.{AllBelow};
ghost use Rattle.dealing.specs.Special.{cells_known, sizes_in};
ghost use Rattle.dealing.specs.Stages.{grown};

use crate::special::Special;

/// The size of each special cluster that is hit grows by 1.
pub(crate) fn grow(special: &mut [Special], hit: &[bool])
    requires same { length hit.now ≡ length special.old }
    requires room { AllBelow 65535 (sizes_in special.old) }
    ensures sizes { sizes_in special.new ≡ grown hit.now (sizes_in special.old) }
    ensures known { cells_known special.new ≡ cells_known special.old }
{
    // by place: after `iter_mut` with a `zip`, a proof does not know what was written
    for (i, here) in hit.iter().enumerate() {
        if *here {
            special[i].size += 1;
        }
    }
}

/// The place of a pair in the pair counts.
pub(crate) fn pair_place(i: usize, j: usize) -> usize
    requires i { i < 64 }
    requires j { j < 64 }
    ensures { result ≡ pair_place i j }
{
    64 * i + j
}

/// The count of each two special clusters that are hit grows by 1.
pub(crate) fn count_pairs(pairs: &mut [u16], hit: &[bool])
    requires few { length hit.now ≤ 64 }
    requires long { length pairs.old ≡ 4096 }
    requires room { (a b : ℕ) → a < b → b < length hit.now → pair_count pairs.old a b < 65535 }
    ensures { Counted (length hit.now) (both_hit hit.now) pairs.old pairs.new }
{
    for (i, here) in hit.iter().enumerate() {
        if *here {
            count_with(pairs, hit, i);
        }
    }
}

// The count of special cluster `i` with each later one that is hit grows by 1.
fn count_with(pairs: &mut [u16], hit: &[bool], i: usize)
    requires few { length hit.now ≤ 64 }
    requires inside { i < length hit.now }
    requires long { length pairs.old ≡ 4096 }
    requires room { (b : ℕ) → i < b → b < length hit.now → pair_count pairs.old i b < 65535 }
    ensures { Counted (length hit.now) (λ a b. (a == i) && slice_index_or hit.now b false) pairs.old pairs.new }
{
    // by number: j is a place among the hits and in the pair counts, and counted from i + 1 it is no plainer
    for j in i + 1..hit.len() {
        if hit[j] {
            pairs[pair_place(i, j)] += 1;
        }
    }
}
