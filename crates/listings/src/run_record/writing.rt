//! Writing a listing from the record of a run.

#![tactic(auto, using(crate::proofs::Penned::turns))]

ghost use Rattle.std.specs.Prelude.{◌≡◌, true};
ghost use Rattle.listings.specs.Listings.{listing_bytes, is_this_run};
ghost use Rattle.listings.specs.Lists.{run_in};
ghost use Rattle.listings.specs.Pens.{penned, wrote};

use super::RunRecord;
use crate::changes::list_changes;
use crate::pen::Pen;
use crate::sections::{list_outcomes, list_queues, list_rest};
use yard::board::Board;
use yard::kind::Kind;
use yard::part::part;

/// Writes the four sections of the listing.
pub(crate) fn write<K: Kind, B: Board<Value = K::Value>>(
    run: RunRecord<K::Value>,
    board: &B,
    pen: &mut Pen,
)
    requires { is_this_run (run_in run (B.Board.values board.now)) ≡ true }
    ensures { penned pen.new ≡ wrote (listing_bytes K.Kind.rows K.Kind.equals (run_in run.entry (B.Board.values board.now))) (penned pen.old) }
{
    let queues = usize::from(run.opening.queues());
    let moves = usize::from(run.opening.moves());
    let cells = usize::from(run.opening.cells());
    list_queues(part(run.lanes, 1, queues + 1), run.line_up, pen);
    list_rest(run.lanes[0].places(run.line_up), pen);
    list_outcomes(part(run.moves, 0, moves), run.outcomes, pen);
    list_changes::<K, B>(part(run.values, 0, cells), board, pen);
}
