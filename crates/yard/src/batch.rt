//! Steps, moves and batches.

ghost use Rattle.std.specs.Prelude.{◌≡◌};
ghost use Rattle.yard.specs.Moves.{steps_of, nothing_written, nothing_in_moves};

use crate::part::part;

/// What is to be done on a cell: a letter and a number.
#[derive(Clone, Copy, Debug, PartialEq)]
pub struct Order {
    pub letter: char,
    pub number: u16,
}

/// One order on one cell.
#[derive(Clone, Copy, Debug, PartialEq)]
pub struct Step {
    pub cell: u16,
    pub order: Order,
}

/// Steps that belong together: `count` of the batch's steps, from the place `first` on.
#[derive(Clone, Copy, Debug, PartialEq)]
pub struct Move {
    pub label: u16,
    pub first: u16,
    pub count: u16,
}

impl Step {
    /// An entry of a list of steps that nothing has been written to. No order has this letter.
    pub const NONE: Step = Step {
        cell: 0,
        order: Order {
            letter: ' ',
            number: 0,
        },
    };
}

impl Move {
    /// An entry of a list of moves that nothing has been written to.
    pub const NONE: Move = Move {
        label: 0,
        first: 0,
        count: 0,
    };

    /// The move's own steps among those of its batch.
    pub fn steps(self, steps: &[Step]) -> &[Step]
        ensures { result.now ≡ steps_of steps.now self }
    {
        let first = usize::from(self.first);
        part(steps, first, first + usize::from(self.count))
    }
}

impl Default for Step {
    ghost is_default = { λ step. step ≡ nothing_written };

    fn default() -> Step {
        Step::NONE
    }
}

impl Default for Move {
    ghost is_default = { λ found. found ≡ nothing_in_moves };

    fn default() -> Move {
        Move::NONE
    }
}

/// What is dealt in one go: the moves with all their steps, the moves to be sampled, and the share of merging in thousandths.
#[derive(Clone, Copy)]
pub struct Batch<'a> {
    pub cells: u16,
    pub share: u16,
    pub moves: &'a [Move],
    pub steps: &'a [Step],
    pub choices: &'a [u16],
}
