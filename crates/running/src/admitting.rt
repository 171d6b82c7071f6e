//! Whether a step call can be worked: refusals 18 to 21.

ghost use Rattle.std.specs.Prelude.{◌≡◌, ◌<◌, length};
ghost use Rattle.std.specs.List.{list_any};
ghost use Rattle.books.specs.Calls.{busy, long_enough, fits};
ghost use Rattle.books.specs.Scripts.{due};
ghost use Rattle.running.specs.Admitting.{LongScript, script_long, steps_fit, told_lane, admitted};
ghost use Rattle.running.specs.Lanes.{row_in, has_step};
ghost use Rattle.running.specs.Run.{script_of, state_in};

use crate::lane::Lane;
use crate::run::Run;
use crate::script::Script;
use dealing::fitting::all_known;
use yard::batch::Move;
use yard::board::Board;
use yard::kind::Kind;
use yard::refusal::Refusal;
use yard::run::LaneRow;

impl<K: Kind, B: Board<Value = K::Value>> Run<'_, '_, '_, K, B> {
    /// The lane of a step call that can be worked, or why the call is refused.
    pub(crate) fn admit(&self, lane: usize) -> Result<Lane, Refusal>
        ensures { told_lane result ≡ admitted K.Kind.rules (script_of self.now.script) (state_in B.Board.values self.now) lane }
    {
        let queues = usize::from(self.script.opening.queues());
        if lane > queues {
            return Err(Refusal::NoSuchLane);
        }
        if !self.is_long_enough() {
            return Err(Refusal::NotThisRun);
        }
        let found = Lane::of_row(self.lanes[lane]);
        if found.is_some_and(Lane::is_at_end) {
            return Err(Refusal::LaneAtEnd);
        }
        if lane == 0 && queues_busy(self.lanes, queues) {
            return Err(Refusal::QueuesBusy);
        }
        match found {
            Some(found) if self.script.fits::<K>(found) => Ok(found),
            _ => Err(Refusal::NotThisRun),
        }
    }

    // Whether no list is shorter than the opening says.
    fn is_long_enough(&self) -> bool
        ensures { result ≡ long_enough K.Kind.rules (script_of self.now.script) (state_in B.Board.values self.now) }
    {
        self.script.is_long_enough()
            && usize::from(self.script.opening.queues()) < self.lanes.len()
            && usize::from(self.script.opening.moves()) <= self.outcomes.len()
            && usize::from(self.script.opening.cells()) <= self.board.count()
            && usize::from(self.script.opening.steps()) <= self.saved.len()
    }
}

impl Script<'_> {
    // Whether no list of the script is shorter than the opening says.
    fn is_long_enough(self) -> bool
        ensures { result ≡ script_long (script_of self.entry) }
    {
        let moves = usize::from(self.opening.moves());
        moves <= self.batch.moves.len()
            && usize::from(self.opening.steps()) <= self.batch.steps.len()
            && moves <= self.line_up.len()
    }

    // Whether the lane has a move under way, and that move and its steps up to the one due are such as open accepts.
    fn fits<K: Kind>(self, lane: Lane) -> bool
        requires { LongScript (script_of self) }
        ensures { result ≡ fits K.Kind.rules (script_of self.entry) (row_in lane) }
    {
        if !lane.has_step_left() || lane.row.end > self.opening.moves() {
            return false;
        }
        let due = self.due(lane);
        due < self.opening.moves()
            && self.steps_fit::<K>(self.batch.moves[usize::from(due)], lane.row.taken)
    }

    /// The place of the move that a lane has under way.
    pub(crate) fn due(self, lane: Lane) -> u16
        requires { lane.row.next < length self.line_up.now }
        ensures { result ≡ due (script_of self.entry) (row_in lane) }
    {
        self.line_up[usize::from(lane.row.next)]
    }

    // Whether a move's steps are among the steps, and one is due after `taken` others, all known.
    fn steps_fit<K: Kind>(self, found: Move, taken: u16) -> bool
        requires { LongScript (script_of self) }
        ensures { result ≡ steps_fit K.Kind.rules (script_of self.entry) found taken }
    {
        let first = usize::from(found.first);
        if first + usize::from(found.count) > usize::from(self.opening.steps())
            || taken >= found.count
        {
            return false;
        }
        let end = first + usize::from(taken) + 1;
        all_known::<K>(
            &self.batch.steps[first..end],
            usize::from(self.opening.cells()),
        )
    }
}

// Whether one of the queues has a step left.
#[tactic(auto, using(crate::proofs::Rows::queues_busy))]
fn queues_busy(lanes: &[LaneRow], queues: usize) -> bool
    requires { queues < length lanes.now }
    ensures { result ≡ busy lanes.now queues }
{
    some_has_step(&lanes[1..=queues])
}

// Whether one of the rows has a step left.
fn some_has_step(rows: &[LaneRow]) -> bool
    ensures { result ≡ list_any has_step rows.now }
{
    rows.iter()
        .any(|row| Lane::of_row(*row).is_some_and(Lane::has_step_left))
}
