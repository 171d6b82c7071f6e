//! One step of a move on a board, and setting a failed move back.

ghost use Rattle.std.specs.Prelude.{◌≡◌, ◌+◌, ◌≤◌, length};
ghost use Rattle.books.specs.Steps.{set_back};
ghost use Rattle.running.specs.Working.{Workable, Stepped};

use yard::batch::Step;
use yard::board::Board;
use yard::cause::Cause;
use yard::kind::Kind;

// The board and two lists, and not the run: so the contracts need not say that the rest of it stays.

/// Works the step that comes after `taken` others of the move that begins at `first`. If it fails, the move is set back.
pub(crate) fn work_step<K: Kind, B: Board<Value = K::Value>>(
    board: &mut B,
    steps: &[Step],
    saved: &mut [K::Value],
    first: usize,
    taken: usize,
) -> Result<(), Cause>
    requires { Workable K.Kind.rules steps.now (B.Board.values board.old) saved.old (first + taken) }
    ensures stepped { Stepped K.Kind.rules steps.now first taken (B.Board.values board.old) saved.old
        (B.Board.values board.new) saved.new result }
    ensures around { B.Board.around board.new ≡ B.Board.around board.old }
{
    let place = first + taken;
    let step = steps[place];
    let cell = usize::from(step.cell);
    let Ok(old) = board.get(cell) else {
        unreachable();
    };
    match K::apply(step.order, old) {
        Some(Ok(new)) => {
            if K::writes(step.order) {
                saved[place] = old;
                let _ = board.set(cell, new);
            }
            Ok(())
        }
        Some(Err(cause)) => {
            set_back::<K, B>(board, steps, saved, first, taken);
            Err(cause)
        }
        None => unreachable(),
    }
}

// Sets back what `count` steps from `first` on wrote, the latest first.
fn set_back<K: Kind, B: Board<Value = K::Value>>(
    board: &mut B,
    steps: &[Step],
    saved: &[K::Value],
    first: usize,
    count: usize,
)
    requires steps { first + count ≤ length steps.now }
    requires saved { first + count ≤ length saved.now }
    ensures values { B.Board.values board.new
        ≡ set_back K.Kind.rules steps.now saved.now first count (B.Board.values board.old) }
    ensures around { B.Board.around board.new ≡ B.Board.around board.old }
{
    let end = first + count;
    let steps = steps[first..end].iter().rev();
    for (step, old) in steps.zip(saved[first..end].iter().rev()) {
        if K::writes(step.order) {
            let _ = board.set(usize::from(step.cell), *old);
        }
    }
}
