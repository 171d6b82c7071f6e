//! The five stages, one after the other.

ghost use Rattle.std.specs.Prelude.{◌≡◌, ◌≤◌, length, replicate};
ghost use Rattle.yard.specs.Batches.{listed};
ghost use Rattle.yard.specs.Fronts.{laid};
ghost use Rattle.dealing.specs.Dealable.{Dealable, Working};
ghost use Rattle.dealing.specs.Lanes.{dealing, line_up_of, lane_rows};
ghost use Rattle.dealing.specs.Lent.{SameRunLists};

use crate::clustering::{Clustering, SpecialClusters};
use crate::lining::line_up_moves;
use crate::opening::lists::RunLists;
use crate::prepared::Prepared;
use crate::prepared::naming::prepare;
use yard::batch::Batch;
use yard::kind::Kind;

// Three lists and no struct of them: a struct of parts of lists is not covered by the borrow checker.
/// Deals a batch with working lists of just the length that is used. They hold 0 afterwards. How many queues were made is returned.
pub(crate) fn deal<K: Kind>(
    batch: Batch,
    active: &mut [bool],
    run: &mut RunLists,
    parents: &mut [u16],
    marks: &mut [u8],
    pairs: &mut [u16],
) -> usize
    requires batch { Dealable (listed batch) }
    requires active { length active.old ≡ batch.cells }
    requires working { Working batch.cells parents.old marks.old pairs.old }
    requires line_up { 256 ≤ length run.old.line_up.now }
    requires lanes { 257 ≤ length run.old.lanes.now }
    ensures queues { result ≡ (dealing K.Kind.rules (listed batch.entry)).queues }
    ensures few { result ≤ 256 }
    ensures line_up { run.new.line_up.now ≡ laid (line_up_of (dealing K.Kind.rules (listed batch.entry))) run.old.line_up.now }
    ensures lanes { run.new.lanes.now ≡ laid (lane_rows (dealing K.Kind.rules (listed batch.entry))) run.old.lanes.now }
    ensures outcomes { run.new.outcomes.now ≡ run.old.outcomes.now }
    ensures run { SameRunLists run.old run.new }
    ensures parents { parents.new ≡ replicate (length parents.old) 0 }
    ensures marks { marks.new ≡ replicate (length marks.old) 0 }
    ensures pairs { pairs.new ≡ replicate (length pairs.old) 0 }
{
    prepare::<K>(batch.steps, active);
    let prepared = Prepared {
        active,
        steps: batch.steps,
        moves: batch.moves,
    };
    let mut clusters = Clustering::apart(parents, marks, prepared);
    let special = clusters.spot(batch.choices);
    pairs.fill(0);
    let mut found = SpecialClusters {
        clusters,
        special,
        pairs,
        skipped: 0,
    };
    found.fuse();
    found.merge(batch.share);
    let dealt = found.clusters.allocate();
    line_up_moves(&dealt.lane_of, dealt.queues, run.line_up, run.lanes);
    parents.fill(0);
    // clear as it is, but a proof does not see that through a struct in a struct
    marks.fill(0);
    pairs.fill(0);
    dealt.queues
}
