//! A board that keeps its changes apart: a cell's value is its change where one is set, else the base value under it.

ghost use Rattle.std.specs.Prelude.{◌≡◌, min, length, take, drop, if◌then◌else◌, nat_le, slice_set};
ghost use Rattle.yard.specs.Cells.{value_at, cell_there};
ghost use Rattle.yard.specs.Told.{told, gives, refuses};
ghost use Rattle.boards.specs.Shadow.{shown, cleared, beneath, shadow_values, shadow_changes, shadow_around};

use yard::board::Board;
use yard::refusal::Refusal;

#[derive(Drop)]
pub struct ShadowBoard<'a, 'b, V: Copy> {
    changes: &'a mut [Option<V>],
    base: &'b [V],
}

impl<'a, 'b, V: Copy> ShadowBoard<'a, 'b, V> {
    /// Whether there is a place for a change over each base value.
    pub fn fits(changes: &[Option<V>], base: &[V]) -> Result<(), Refusal>
        ensures { told result ≡ (if nat_le (length base.now) (length changes.now) then gives tt else refuses 11) }
    {
        if base.len() <= changes.len() {
            Ok(())
        } else {
            Err(Refusal::ResultTooShort)
        }
    }

    /// A board that shows the base, with no change set. It has as many cells as the shorter list, and keeps the places past them.
    pub fn new(changes: &'a mut [Option<V>], base: &'b [V]) -> ShadowBoard<'a, 'b, V>
        ensures values { shadow_values result ≡ take (length changes.old) base.now }
        ensures changes { shadow_changes result ≡ cleared (length base.now) changes.old }
        ensures around { shadow_around result ≡ beneath changes.entry.ghost_name changes.old base.now }
    {
        clear(changes, base);
        ShadowBoard { changes, base }
    }

    // The cells are those that have both a place and a base value.
    fn cells(&self) -> usize
        ensures { result ≡ min (length self.now.changes.now) (length self.now.base.now) }
    {
        self.changes.len().min(self.base.len())
    }
}

impl<V: Copy> Board for ShadowBoard<'_, '_, V> {
    type Value = V;

    ghost values = { shadow_values };

    ghost around = { shadow_around };

    #[tactic(auto, using(crate::proofs::Changes::length_shown))]
    fn count(&self) -> usize {
        self.cells()
    }

    #[tactic(auto, using(crate::proofs::Changes::length_shown, crate::proofs::Changes::shown_at, crate::proofs::Cells::value_past))]
    fn get(&self, cell: usize) -> Result<V, Refusal> {
        if cell < self.cells() {
            Ok(self.changes[cell].unwrap_or(self.base[cell]))
        } else {
            Err(Refusal::NoSuchCell)
        }
    }

    #[tactic(auto, using(crate::proofs::Changes::length_shown, crate::proofs::Changes::shown_set, crate::proofs::Cells::there_within, crate::proofs::Cells::there_past, std::proofs::lemmas::List::set_past))]
    fn set(&mut self, cell: usize, value: V) -> Result<(), Refusal> {
        if cell < self.cells() {
            self.changes[cell] = Some(value);
            Ok(())
        } else {
            Err(Refusal::NoSuchCell)
        }
    }
}

// Empties the places of all cells.
fn clear<V: Copy>(changes: &mut [Option<V>], base: &[V])
    ensures changes { changes.new ≡ cleared (length base.now) changes.old }
    ensures values { shown changes.new base.now ≡ take (length changes.old) base.now }
    ensures past { drop (length base.now) changes.new ≡ drop (length base.now) changes.old }
{
    let cells = base.len().min(changes.len());
    changes[..cells].fill_with(|| None);
}

#[cfg(test)]
mod tests {
    use super::*;
    use crate::live::LiveBoard;
    use std::test::Fail;

    // Knows nothing of the board but what every board promises.
    fn set_on<B: Board>(board: &mut B, cell: usize, value: B::Value) -> Result<(), Refusal>
        ensures answer { told result ≡ cell_there (B.Board.values board.old) cell }
        ensures values { B.Board.values board.new ≡ slice_set (B.Board.values board.old) cell value }
        ensures around { B.Board.around board.new ≡ B.Board.around board.old }
    {
        board.set(cell, value)
    }

    // What the lender knows of its cells once the board is let go.
    fn set_live(cells: &mut [u16], cell: usize, value: u16) -> Result<(), Refusal>
        ensures answer { told result ≡ cell_there cells.old cell }
        ensures values { cells.new ≡ slice_set cells.old cell value }
    {
        let mut board = LiveBoard::over(cells);
        set_on(&mut board, cell, value)
    }

    // What the lender knows of its changes once the board is let go.
    fn set_shadow(
        changes: &mut [Option<u16>],
        base: &[u16],
        cell: usize,
        value: u16,
    ) -> Result<(), Refusal>
        ensures answer { told result ≡ cell_there (take (length changes.old) base.now) cell }
        ensures values { shown changes.new base.now ≡ slice_set (take (length changes.old) base.now) cell value }
        ensures past { drop (length base.now) changes.new ≡ drop (length base.now) changes.old }
    {
        let mut board = ShadowBoard::new(changes, base);
        set_on(&mut board, cell, value)
    }

    #[test]
    fn live_up_to_its_last_cell(rt: HostRuntime) {
        let mut cells = [5u16, 6, 7];
        let board = LiveBoard::over(&mut cells);
        assert_eq!(rt; board.count(), 3);
        assert_eq!(rt; board.get(2), Ok(7));
        assert_eq!(rt; board.get(3), Err(Refusal::NoSuchCell));
        assert_eq!(rt; set_live(&mut cells, 2, 9), Ok(()));
        assert_eq!(rt; cells, [5, 6, 9]);
        assert_eq!(rt; set_live(&mut cells, 3, 1), Err(Refusal::NoSuchCell));
        assert_eq!(rt; cells, [5, 6, 9]);
    }

    #[test]
    fn shadow_up_to_its_last_cell(rt: HostRuntime) {
        let base = [5u16, 6];
        let mut changes = [None, Some(1), Some(8)];
        assert_eq!(rt; ShadowBoard::fits(&changes, &base), Ok(()));
        assert_eq!(rt;
            set_shadow(&mut changes, &base, 2, 9),
            Err(Refusal::NoSuchCell)
        );
        assert_eq!(rt; changes, [None, None, Some(8)]);
        assert_eq!(rt; set_shadow(&mut changes, &base, 1, 9), Ok(()));
        assert_eq!(rt; changes, [None, Some(9), Some(8)]);
    }

    #[test]
    fn shadow_shows_changes_over_the_base(rt: HostRuntime) -> Result<(), Fail> {
        let base = [5u16, 6];
        let mut changes = [None; 2];
        let mut board = ShadowBoard::new(&mut changes, &base);
        assert_eq!(rt; board.get(1), Ok(6));
        board.set(1, 9)?;
        assert_eq!(rt; board.get(1), Ok(9));
        assert_eq!(rt; board.get(0), Ok(5));
        assert_eq!(rt; board.get(2), Err(Refusal::NoSuchCell));
        assert_eq!(rt; base, [5, 6]);
        Ok(())
    }

    #[test]
    fn shadow_with_too_few_places(rt: HostRuntime) {
        let base = [5u16, 6, 7];
        let mut changes = [None; 2];
        assert_eq!(rt;
            ShadowBoard::fits(&changes, &base),
            Err(Refusal::ResultTooShort)
        );
        let board = ShadowBoard::new(&mut changes, &base);
        assert_eq!(rt; board.count(), 2);
        assert_eq!(rt; board.get(2), Err(Refusal::NoSuchCell));
    }
}
