//! Any list of calls on a run, one answer a call, and the law of runs.

ghost use Rattle.std.specs.Prelude.{◌≡◌, true, map, is_ok};
ghost use Rattle.yard.specs.declared.run.Call.TheVariants.{Tally};
ghost use Rattle.yard.specs.Runs.{reply_of};
ghost use Rattle.books.specs.Calls.{after, reply};
ghost use Rattle.books.specs.Law.{Law};
ghost use Rattle.running.specs.Performed.{OpenedFor, Performed};
ghost use Rattle.running.specs.Run.{script_of, state_in, Keeps};

use crate::asking::look;
use crate::run::Run;
use crate::tallying::tally;
use yard::board::Board;
use yard::kind::Kind;
use yard::refusal::Refusal;
use yard::run::{Answer, Call};

impl<K: Kind, B: Board<Value = K::Value>> Run<'_, '_, '_, K, B> {
    /// Works the calls in their order and puts an answer for each at the front of `answers`. On lists that open filled, the law of runs holds of them.
    pub fn perform(
        &mut self,
        calls: &[Call],
        answers: &mut [Result<Answer<K::Value>, Refusal>],
    ) -> Result<(), Refusal>
        ensures performed { Performed K.Kind.rules (script_of self.old.script) calls.now
            (state_in B.Board.values self.old) answers.old (state_in B.Board.values self.new) answers.new result }
        ensures keeps { Keeps B.Board.around self.old self.new }
        ensures law { is_ok result ≡ true →
            OpenedFor K.Kind.rules self.old.script (B.Board.values self.old.board.now) self.old.outcomes.now self.old.lanes.now →
            Law K.Kind.rules (script_of self.old.script) (state_in B.Board.values self.old)
            calls.now (map reply_of answers.new) (state_in B.Board.values self.new) }
    {
        if answers.len() < calls.len() {
            return Err(Refusal::ResultTooShort);
        }
        for (i, call) in calls.iter().enumerate() {
            // by place: after `zip` with `iter_mut`, a proof does not know what was written
            answers[i] = self.serve(*call);
        }
        Ok(())
    }

    // Works one call.
    fn serve(&mut self, call: Call) -> Result<Answer<K::Value>, Refusal>
        ensures after { state_in B.Board.values self.new
            ≡ after K.Kind.rules (script_of self.old.script) (state_in B.Board.values self.old) call }
        ensures reply { reply_of result ≡ reply K.Kind.rules (script_of self.old.script) (state_in B.Board.values self.old) call }
        ensures keeps { Keeps B.Board.around self.old self.new }
    {
        match call {
            Call::Step(lane) => self.step(lane),
            Call::Look(cell) => Ok(Answer::Held(look::<B>(self.board, cell)?)),
            Call::Tally => self.tally(),
        }
    }

    // Tells how far the run is.
    fn tally(&self) -> Result<Answer<K::Value>, Refusal>
        ensures { reply_of result ≡ reply K.Kind.rules (script_of self.now.script) (state_in B.Board.values self.now) Tally }
    {
        let script = self.script;
        let counted = tally(
            script.opening,
            script.batch.moves,
            self.lanes,
            self.outcomes,
        )?;
        Ok(Answer::Counted(counted))
    }
}
