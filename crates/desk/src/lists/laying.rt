//! Laying out a desk.

ghost use Rattle.std.specs.Prelude.{◌≡◌, replicate, IfOk};
ghost use Rattle.sheets.specs.Lent.{lent};
ghost use Rattle.desk.specs.Empty.{LaidOut, on_desk};

use super::Desk;
use sheets::lists::SheetLists;
use std::alloc::{AllocError, Global};
use yard::batch::{Move, Step};
use yard::full::{CELLS, CHOICES, MOVES, STEPS};
use yard::kind::Kind;

/// An empty desk for a kind, or want of memory.
pub fn lay_out<K: Kind>(heap: Global) -> Result<Desk<K::Value>, AllocError>
    ensures { IfOk result (LaidOut K.Kind.rows.unnamed) }
{
    let values = empty_cells::<K>(heap)?;
    let moves = vec![in heap; Move::NONE; MOVES]?;
    let steps = vec![in heap; Step::NONE; STEPS]?;
    let choices = vec![in heap; 0; CHOICES]?;
    Ok(Desk {
        values,
        moves,
        steps,
        choices,
    })
}

impl<V: Drop> Desk<V> {
    /// The lists of the desk, lent for a sheet to be read into.
    pub fn lists(&mut self) -> SheetLists<'_, V>
        ensures { lent result ≡ on_desk self.old }
    {
        SheetLists {
            values: &mut self.values,
            moves: &mut self.moves,
            steps: &mut self.steps,
            choices: &mut self.choices,
        }
    }
}

// A push for each, since a clone of a type parameter's value is not known to be that value.
fn empty_cells<K: Kind>(heap: Global) -> Result<Vec<K::Value>, AllocError>
    ensures { IfOk result (λ v. v.items ≡ replicate 1024 K.Kind.rows.unnamed) }
{
    let mut values = Vec::new(heap);
    for _ in 0..CELLS {
        values.push(K::unnamed())?;
    }
    Ok(values)
}
