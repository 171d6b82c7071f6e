//! What a run keeps in its lists, what can be asked of it, and what it answers.

ghost use Rattle.std.specs.Prelude.{◌≡◌, slice_range};
ghost use Rattle.yard.specs.declared.run.Call.TheVariants as asked;

use crate::cause::Cause;
use crate::part::part;

/// A lane's part of the line-up, from `first` to before `end`. The moves before `next` have ended; of the one at `next` so many steps are taken.
#[derive(Clone, Copy, Debug, PartialEq)]
pub struct LaneRow {
    pub first: u16,
    pub next: u16,
    pub end: u16,
    pub taken: u16,
}

impl LaneRow {
    /// An entry of a list of lanes that nothing has been written to: a lane without moves.
    pub const NONE: LaneRow = LaneRow {
        first: 0,
        next: 0,
        end: 0,
        taken: 0,
    };

    /// The places of the lane's moves: its part of the line-up.
    pub fn places(self, line_up: &[u16]) -> &[u16]
        ensures { result.now ≡ slice_range line_up.now self.first self.end }
    {
        part(line_up, usize::from(self.first), usize::from(self.end))
    }
}

/// How a move stands. A failed one has the failing step, counted from 1, and the cause.
// not an `Option` of a `Result`: the three have names that everybody in a yard uses
#[derive(Clone, Copy, Debug, PartialEq)]
pub enum Outcome {
    NotEnded,
    Done,
    Failed(u16, Cause),
}

/// What is asked of a run: the next step of a lane, the value of a cell, or how far the run is. The default alters nothing.
#[derive(Clone, Copy, Debug, PartialEq)]
pub enum Call {
    Step(usize),
    Look(usize),
    Tally,
}

impl Default for Call {
    ghost is_default = { λ call. call ≡ asked.Tally };

    fn default() -> Call {
        Call::Tally
    }
}

/// How far a run is: the steps accepted, and the moves done, failed and not ended.
#[derive(Clone, Copy, Debug, PartialEq)]
pub struct Tally {
    pub accepted: usize,
    pub done: usize,
    pub failed: usize,
    pub not_ended: usize,
}

/// What a run answers: of a step that it passed, that its move is now done, or that its move failed at a step, counted from 1, with the cause; of a look the value; of a tally the numbers.
#[derive(Clone, Copy, Debug, PartialEq)]
pub enum Answer<V> {
    Passed,
    Done,
    Failed(u16, Cause),
    Held(V),
    Counted(Tally),
}
