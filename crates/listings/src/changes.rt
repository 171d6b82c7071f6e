//! The last section of a listing: the cells whose value is not that of the opening.

#![tactic(auto, using(crate::proofs::Penned::turns))]

ghost use Rattle.std.specs.Prelude.{◌≡◌, length};
ghost use Rattle.std.specs.List.{slice_get, flat_map};
ghost use Rattle.listings.specs.Lines.{line};
ghost use Rattle.listings.specs.Listings.{cell_line, change_of, change_line, change_lines, change_section};
ghost use Rattle.listings.specs.Pens.{penned, wrote};

use crate::pen::Pen;
use yard::board::Board;
use yard::kind::Kind;

/// The changed cells; `values` are the opening values of all cells.
pub(crate) fn list_changes<K: Kind, B: Board<Value = K::Value>>(
    values: &[K::Value],
    board: &B,
    pen: &mut Pen,
)
    ensures { penned pen.new ≡ wrote (change_section K.Kind.rows K.Kind.equals (B.Board.values board.now) values.now) (penned pen.old) }
{
    pen.head(b'V', count_changes::<K, B>(values, board));
    for (cell, opened) in values.iter().enumerate() {
        if let Some(value) = change_of::<K, B>(*opened, board, cell) {
            list_cell::<K>(cell, value, pen);
        }
    }
}

// A walk of its own, since of a chain's clone nothing is known.
fn count_changes<K: Kind, B: Board<Value = K::Value>>(values: &[K::Value], board: &B) -> usize
    ensures { result ≡ length (change_lines K.Kind.rows K.Kind.equals (B.Board.values board.now) 0 values.now) }
{
    values
        .iter()
        .enumerate()
        .filter(|(cell, opened)| change_of::<K, B>(**opened, board, *cell).is_some())
        .count()
}

// What a cell holds, where that is not its opening value.
fn change_of<K: Kind, B: Board<Value = K::Value>>(
    opened: K::Value,
    board: &B,
    cell: usize,
) -> Option<K::Value>
    ensures { result ≡ change_of K.Kind.equals opened (slice_get (B.Board.values board.now) cell) }
{
    board
        .get(cell)
        .ok()
        .filter(|value| !K::equal(*value, opened))
}

// A cell and the words of its value.
fn list_cell<K: Kind>(cell: usize, value: K::Value, pen: &mut Pen)
    ensures { penned pen.new ≡ wrote (line (cell_line K.Kind.rows cell value)) (penned pen.old) }
{
    pen.number(cell);
    for place in 1..K::ROW_WORDS {
        pen.word(usize::from(K::word_at(value, place)));
    }
    pen.end_line();
}
