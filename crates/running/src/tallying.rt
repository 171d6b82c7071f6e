//! How far a run is, from the rows of its lanes and the outcomes of its moves.

ghost use Rattle.std.specs.Prelude.{◌≡◌, ◌*◌, ◌≤◌, map, length};
ghost use Rattle.std.specs.List.{list_all};
ghost use Rattle.yard.specs.Runs.{end_of};
ghost use Rattle.yard.specs.Told.{told};
ghost use Rattle.dealing.specs.Openings.{numbers_in};
ghost use Rattle.books.specs.Tallies.{accepted_of, accepted_in, done_in, failed_in, taken_in, tally_of, tally_fits, tallied};
ghost use Rattle.running.specs.Lanes.{is_within};

use crate::lane::Lane;
use dealing::opening::Opening;
use yard::batch::Move;
use yard::refusal::Refusal;
use yard::run::{LaneRow, Outcome, Tally};

/// The steps accepted so far, and the moves done, failed and not ended.
pub fn tally(
    opening: Opening,
    moves: &[Move],
    lanes: &[LaneRow],
    outcomes: &[Outcome],
) -> Result<Tally, Refusal>
    ensures { told result ≡ tallied (numbers_in opening) moves.now lanes.now (map end_of outcomes.now) }
{
    if !fits(opening, moves, lanes, outcomes) {
        return Err(Refusal::NotThisRun);
    }
    let ended = ended(moves, outcomes, usize::from(opening.moves()));
    Ok(Tally {
        accepted: ended.accepted + under_way(lanes, usize::from(opening.queues()) + 1),
        ..ended
    })
}

// Whether the lists are those of a run with these numbers.
fn fits(opening: Opening, moves: &[Move], lanes: &[LaneRow], outcomes: &[Outcome]) -> bool
    ensures { result ≡ tally_fits (numbers_in opening) moves.now lanes.now (map end_of outcomes.now) }
{
    let count = usize::from(opening.moves());
    let queues = usize::from(opening.queues());
    count <= moves.len()
        && queues < lanes.len()
        && count <= outcomes.len()
        && all_within(&lanes[..=queues])
}

// Whether none of the rows is past its end.
fn all_within(rows: &[LaneRow]) -> bool
    ensures { result ≡ list_all is_within rows.now }
{
    rows.iter().all(|row| Lane::of_row(*row).is_some())
}

// The steps taken of the moves that the first lanes have under way.
fn under_way(lanes: &[LaneRow], count: usize) -> usize
    requires within { count ≤ length lanes.now }
    requires few { count ≤ 257 }
    ensures taken { result ≡ taken_in lanes.now count }
    ensures bound { result ≤ 65535 * count }
{
    let mut taken = 0;
    // not `sum`, which asks for a bound on every run of the chain
    for row in &lanes[..count] {
        taken += usize::from(row.taken);
    }
    taken
}

// How far the first moves are, the steps of moves under way apart.
fn ended(moves: &[Move], outcomes: &[Outcome], count: usize) -> Tally
    requires moves { count ≤ length moves.now }
    requires outcomes { count ≤ length outcomes.now }
    requires few { count ≤ 256 }
    ensures ended { result ≡ tally_of count (accepted_in moves.now (map end_of outcomes.now) count)
        (done_in (map end_of outcomes.now) count) (failed_in (map end_of outcomes.now) count) }
    ensures bound { result.accepted ≤ 65535 * count }
{
    let mut accepted = 0;
    let mut done = 0;
    let mut failed = 0;
    for (found, outcome) in moves[..count].iter().zip(&outcomes[..count]) {
        accepted += usize::from(accepted_steps(*outcome, found.count));
        match outcome {
            Outcome::NotEnded => {}
            Outcome::Done => done += 1,
            Outcome::Failed(_, _) => failed += 1,
        }
    }
    Tally {
        accepted,
        done,
        failed,
        not_ended: count - (done + failed),
    }
}

// The accepted steps of a move that has `count`: all of them when it is done, those up to the failing one when it failed.
fn accepted_steps(outcome: Outcome, count: u16) -> u16
    ensures { result ≡ accepted_of count (end_of outcome) }
{
    match outcome {
        Outcome::NotEnded => 0,
        Outcome::Done => count,
        Outcome::Failed(step, _) => step,
    }
}
