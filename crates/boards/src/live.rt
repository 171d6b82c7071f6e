//! A board over cells that the caller lends: what is set on the board stands in the caller's list.

ghost use Rattle.std.specs.Prelude.{◌≡◌, slice_set};
ghost use Rattle.yard.specs.Cells.{value_at, cell_there};
ghost use Rattle.yard.specs.Told.{told};
ghost use Rattle.boards.specs.Live.{only_lent, live_values, live_around};

use yard::board::Board;
use yard::refusal::Refusal;

#[derive(Drop)]
pub struct LiveBoard<'a, V: Copy> {
    cells: &'a mut [V],
}

impl<'a, V: Copy> LiveBoard<'a, V> {
    /// A board that has the lent cells until it is let go.
    pub fn over(cells: &'a mut [V]) -> LiveBoard<'a, V>
        ensures values { live_values result ≡ cells.old }
        ensures around { live_around result ≡ only_lent cells.entry.ghost_name }
    {
        LiveBoard { cells }
    }
}

impl<V: Copy> Board for LiveBoard<'_, V> {
    type Value = V;

    ghost values = { live_values };

    ghost around = { live_around };

    fn count(&self) -> usize {
        self.cells.len()
    }

    fn get(&self, cell: usize) -> Result<V, Refusal> {
        held(self.cells, cell)
    }

    fn set(&mut self, cell: usize, value: V) -> Result<(), Refusal> {
        put(self.cells, cell, value)
    }
}

fn held<V: Copy>(cells: &[V], cell: usize) -> Result<V, Refusal>
    ensures { told result ≡ value_at cells.now cell }
{
    cells.get(cell).copied().ok_or(Refusal::NoSuchCell)
}

fn put<V: Copy>(cells: &mut [V], cell: usize, value: V) -> Result<(), Refusal>
    ensures answer { told result ≡ cell_there cells.old cell }
    ensures values { cells.new ≡ slice_set cells.old cell value }
{
    if cell < cells.len() {
        cells[cell] = value;
        Ok(())
    } else {
        Err(Refusal::NoSuchCell)
    }
}
