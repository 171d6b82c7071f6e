//! The lists that a sheet is read into.

ghost use Rattle.std.specs.Prelude.{◌≡◌};
ghost use Rattle.sheets.specs.Lent.{lent};
ghost use Rattle.sheets.specs.Sheet.{roomy};

use yard::batch::{Move, Step};
use yard::full::{CELLS, CHOICES, MOVES, STEPS};

/// The lists of a caller that a sheet is read into.
#[derive(Drop)]
pub struct SheetLists<'a, V> {
    pub values: &'a mut [V],
    pub moves: &'a mut [Move],
    pub steps: &'a mut [Step],
    pub choices: &'a mut [u16],
}

impl<V> SheetLists<'_, V> {
    /// Whether each list has its full length, which is enough for every sheet.
    pub(crate) fn are_full(&self) -> bool
        ensures { result ≡ roomy (lent self.now) }
    {
        self.values.len() >= CELLS
            && self.moves.len() >= MOVES
            && self.steps.len() >= STEPS
            && self.choices.len() >= CHOICES
    }
}
