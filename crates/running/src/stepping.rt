//! The next step of a lane.

ghost use Rattle.std.specs.Prelude.{◌≡◌};
ghost use Rattle.yard.specs.declared.run.Call.TheVariants.{Step as StepOn};
ghost use Rattle.yard.specs.Runs.{reply_of};
ghost use Rattle.books.specs.Calls.{after, reply, turn};
ghost use Rattle.running.specs.Lanes.{row_in};
ghost use Rattle.running.specs.Run.{script_of, state_in, Keeps};
ghost use Rattle.running.specs.Turning.{Due, turn_of};

use crate::lane::Lane;
use crate::run::Run;
use crate::working::work_step;
use yard::board::Board;
use yard::kind::Kind;
use yard::refusal::Refusal;
use yard::run::{Answer, LaneRow, Outcome};

impl<K: Kind, B: Board<Value = K::Value>> Run<'_, '_, '_, K, B> {
    /// Takes the next step of a lane. A step that fails sets its move back; a refusal leaves everything as it was.
    pub fn step(&mut self, lane: usize) -> Result<Answer<K::Value>, Refusal>
        ensures after { state_in B.Board.values self.new
            ≡ after K.Kind.rules (script_of self.old.script) (state_in B.Board.values self.old) (StepOn lane) }
        ensures reply { reply_of result ≡ reply K.Kind.rules (script_of self.old.script) (state_in B.Board.values self.old) (StepOn lane) }
        ensures keeps { Keeps B.Board.around self.old self.new }
    {
        let found = self.admit(lane)?;
        let (row, answer) = self.take_turn(found);
        self.lanes[lane] = row;
        Ok(answer)
    }

    // Works the step that is due in a lane: the lane's row after it, and the answer. The rows themselves stay as they were.
    fn take_turn(&mut self, lane: Lane) -> (LaneRow, Answer<K::Value>)
        requires { Due K.Kind.rules (script_of self.old.script) (state_in B.Board.values self.old) (row_in lane) }
        ensures turn { turn_of (state_in B.Board.values self.new) result
            ≡ turn K.Kind.rules (script_of self.old.script) (state_in B.Board.values self.old) (row_in lane) }
        ensures lanes { self.new.lanes.now ≡ self.old.lanes.now }
        ensures keeps { Keeps B.Board.around self.old self.new }
    {
        let due = usize::from(self.script.due(lane));
        let found = self.script.batch.moves[due];
        let first = usize::from(found.first);
        let place = lane.row.taken + 1;
        match work_step::<K, B>(
            self.board,
            self.script.batch.steps,
            self.saved,
            first,
            usize::from(lane.row.taken),
        ) {
            Ok(()) if place < found.count => (lane.after_step(), Answer::Passed),
            Ok(()) => {
                self.outcomes[due] = Outcome::Done;
                (lane.after_move(), Answer::Done)
            }
            Err(cause) => {
                self.outcomes[due] = Outcome::Failed(place, cause);
                (lane.after_move(), Answer::Failed(place, cause))
            }
        }
    }
}
