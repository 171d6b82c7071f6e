//! What open checks before it writes: refusals 12 to 17.

ghost use Rattle.std.specs.Prelude.{◌≡◌};
ghost use Rattle.yard.specs.Batches.{listed};
ghost use Rattle.dealing.specs.Opening.{begins_at, end_to_end, shaped, in_range, refusal, refused_by};

use crate::fitting::{all_below, all_known};
use yard::batch::{Batch, Move};
use yard::full::{CELLS, CHOICES, MOVE_STEPS, MOVES, SHARE, STEPS};
use yard::kind::Kind;
use yard::refusal::Refusal;

/// The first refusal, in rising order. `roomy` says whether the lists that open writes have their full lengths, `count` how many cells the board has.
pub(crate) fn check<K: Kind>(batch: Batch, roomy: bool, count: usize) -> Result<(), Refusal>
    ensures { refused_by result ≡ refusal K.Kind.rules (listed batch.entry) roomy count }
{
    if !is_shaped(batch) {
        return Err(Refusal::MisshapenBatch);
    }
    if !is_in_range(batch) {
        return Err(Refusal::OutOfRange);
    }
    if !all_known::<K>(batch.steps, usize::from(batch.cells)) {
        return Err(Refusal::UnknownOrder);
    }
    if !all_below(batch.choices, batch.moves.len()) {
        return Err(Refusal::NoSuchMove);
    }
    if !roomy {
        return Err(Refusal::WorkTooShort);
    }
    if count < usize::from(batch.cells) {
        return Err(Refusal::BoardTooSmall);
    }
    Ok(())
}

// Whether there are few enough moves, steps and choices, and the moves stand end to end over all the steps.
fn is_shaped(batch: Batch) -> bool
    ensures { result ≡ shaped (listed batch.entry) }
{
    batch.moves.len() <= MOVES
        && batch.steps.len() <= STEPS
        && batch.choices.len() <= CHOICES
        && end_to_end(batch.moves, batch.steps.len())
}

// Whether the moves have 1 to 8 steps each and stand end to end over `count` steps.
fn end_to_end(moves: &[Move], count: usize) -> bool
    ensures { result ≡ end_to_end 0 moves.now count }
{
    let mut at = 0;
    // a loop, since each move is held against the end of the one before
    for found in moves {
        if !follows(*found, at) {
            return false;
        }
        at += usize::from(found.count);
    }
    at == count
}

// Whether a move has 1 to 8 steps and begins at a place.
fn follows(found: Move, at: usize) -> bool
    ensures { result ≡ begins_at at found }
{
    usize::from(found.first) == at && (1..=MOVE_STEPS).contains(&found.count)
}

fn is_in_range(batch: Batch) -> bool
    ensures { result ≡ in_range (listed batch.entry) }
{
    (1..=SHARE).contains(&batch.share) && batch.cells >= 1 && usize::from(batch.cells) <= CELLS
}
