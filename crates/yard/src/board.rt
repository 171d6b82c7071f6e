//! A board: so many cells, a value in each, and surroundings that no call alters.

ghost use Rattle.std.specs.Prelude.{◌≡◌, List, length, slice_set};
ghost use Rattle.yard.specs.Cells.{Surroundings, value_at, cell_there};
ghost use Rattle.yard.specs.Told.{told};

use crate::refusal::Refusal;

pub trait Board {
    type Value: Copy;

    // what each cell holds
    ghost values: { Self → List Self.Value };

    // what no call alters
    ghost around: { Self → Surroundings Self.Value };

    fn count(&self) -> usize
        ensures { result ≡ length (values self.now) };

    fn get(&self, cell: usize) -> Result<Self::Value, Refusal>
        ensures { told result ≡ value_at (values self.now) cell };

    fn set(&mut self, cell: usize, value: Self::Value) -> Result<(), Refusal>
        ensures answer { told result ≡ cell_there (values self.old) cell }
        ensures values { values self.new ≡ slice_set (values self.old) cell value }
        ensures around { around self.new ≡ around self.old };
}
