//! The step calls that work a run through.

ghost use Rattle.std.specs.Prelude.{◌≡◌, ◌+◌, ◌≤◌, [], ◌++◌, length, replicate};
ghost use Rattle.arrayvec.specs.ArrayVec.{array_vec_len};
ghost use Rattle.yard.specs.declared.run.Call.TheVariants.{Step as StepOn};
ghost use Rattle.dealing.specs.Examining.{AllBelow};
ghost use Rattle.dealing.specs.Openings.{numbers_in};
ghost use Rattle.books.specs.Scripts.{part};
ghost use Rattle.planner.specs.Calling.{Callable, CallsOfOpened, counts_in, step_calls_of};

use arrayvec::ArrayVec;
use running::run::Run;
use running::script::Script;
use yard::board::Board;
use yard::kind::Kind;
use yard::run::{Call, LaneRow};

/// As many step calls as work any run through: eight on each move.
pub(crate) const CALLS: usize = 2048;

/// Fills an empty list with the step calls that work the run through: on each queue as many as its moves have steps, then on the rest list.
pub(crate) fn step_calls<K: Kind, B: Board<Value = K::Value>>(
    run: &Run<K, B>,
    calls: &mut ArrayVec<Call, CALLS>,
)
    requires callable { Callable (numbers_in run.now.script.opening) run.now.script.batch.moves.now run.now.script.line_up.now run.now.lanes.now 2048 }
    requires empty { calls.old.items ≡ [] }
    ensures { calls.new.items
        ≡ step_calls_of (numbers_in run.now.script.opening) run.now.script.batch.moves.now run.now.script.line_up.now run.now.lanes.now }
{
    let queues = usize::from(run.script.opening.queues());
    for (place, row) in run.lanes[1..=queues].iter().enumerate() {
        call_lane(run.script, place + 1, *row, calls);
    }
    call_lane(run.script, 0, run.lanes[0], calls);
}

// The step calls on a lane: as many as its moves have steps.
fn call_lane(script: Script, lane: usize, row: LaneRow, calls: &mut ArrayVec<Call, CALLS>)
    requires moves { AllBelow (length script.batch.moves.now) (part script.line_up.now row.first row.end) }
    requires room { array_vec_len calls.old + counts_in script.batch.moves.now (part script.line_up.now row.first row.end) ≤ 2048 }
    ensures { calls.new.items ≡ calls.old.items
        ++ replicate (counts_in script.entry.batch.moves.now (part script.entry.line_up.now row.first row.end)) (StepOn lane) }
{
    for place in row.places(script.line_up) {
        call_steps(lane, script.batch.moves[usize::from(*place)].count, calls);
    }
}

// So many step calls on a lane.
fn call_steps(lane: usize, count: u16, calls: &mut ArrayVec<Call, CALLS>)
    requires { array_vec_len calls.old + count ≤ 2048 }
    ensures { calls.new.items ≡ calls.old.items ++ replicate count (StepOn lane) }
{
    for _ in 0..count {
        calls.push(Call::Step(lane));
    }
}

/// Lists that open filled can be written from where there are 2,048 places, and the calls so written are all that work the run through.
pub(crate) fn calls_of_opened_runs<K: Kind>()
    ensures { CallsOfOpened K.Kind.rules }
{}
