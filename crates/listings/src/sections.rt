//! The sections of a listing: queues, rest list and outcomes.

#![tactic(auto, using(crate::proofs::Penned::turns))]

ghost use Rattle.std.specs.Prelude.{◌≡◌, ◌≤◌, ◌∷◌, map, length};
ghost use Rattle.yard.specs.Runs.{end_of};
ghost use Rattle.listings.specs.Lines.{spaced, line};
ghost use Rattle.listings.specs.Listings.{queue_section, rest_section, end_words, outcome_section};
ghost use Rattle.listings.specs.Pens.{penned, wrote};

use crate::pen::Pen;
use yard::batch::Move;
use yard::run::{LaneRow, Outcome};

/// The queues, one line each.
pub(crate) fn list_queues(queues: &[LaneRow], line_up: &[u16], pen: &mut Pen)
    ensures { penned pen.new ≡ wrote (queue_section line_up.now queues.now) (penned pen.old) }
{
    pen.head(b'Q', queues.len());
    for row in queues {
        list_queue(row.places(line_up), pen);
    }
}

// How many moves a queue has, and their places.
fn list_queue(places: &[u16], pen: &mut Pen)
    ensures { penned pen.new ≡ wrote (line (length places.now ∷ places.now)) (penned pen.old) }
{
    pen.number(places.len());
    for place in places {
        pen.word(usize::from(*place));
    }
    pen.end_line();
}

/// The moves of the rest list, a line for each place.
pub(crate) fn list_rest(places: &[u16], pen: &mut Pen)
    ensures { penned pen.new ≡ wrote (rest_section places.now) (penned pen.old) }
{
    pen.head(b'R', places.len());
    for place in places {
        pen.number(usize::from(*place));
        pen.end_line();
    }
}

/// How each move ended.
pub(crate) fn list_outcomes(moves: &[Move], outcomes: &[Outcome], pen: &mut Pen)
    requires { length moves.now ≤ length outcomes.now }
    ensures { penned pen.new ≡ wrote (outcome_section moves.now (map end_of outcomes.now)) (penned pen.old) }
{
    pen.head(b'E', moves.len());
    for (found, outcome) in moves.iter().zip(outcomes) {
        pen.number(usize::from(found.label));
        list_end(*outcome, pen);
    }
}

// The outcome by number, the failing step and the cause.
fn list_end(outcome: Outcome, pen: &mut Pen)
    ensures { penned pen.new ≡ wrote (spaced (end_words (end_of outcome))) (penned pen.old) }
{
    match outcome {
        Outcome::NotEnded => pen.last_words(&[0, 0, 0]),
        Outcome::Done => pen.last_words(&[1, 0, 0]),
        Outcome::Failed(step, cause) => {
            pen.last_words(&[2, usize::from(step), usize::from(cause.number())])
        }
    }
}
