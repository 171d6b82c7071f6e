//! Reading the sections of a sheet.

ghost use Rattle.std.specs.Prelude.{◌≡◌, ◌+◌, ◌<◌, ◌≤◌, true, [], ◌++◌, length, drop, is_ok, slice_set, Result};
ghost use Rattle.std.specs.Fn.{FnOnceReturnsAtMut};
ghost use Rattle.arrayvec.specs.ArrayVec.{array_vec_len};
ghost use Rattle.text.specs.declared.faults.LineFault.{LineFault as lineFault};
ghost use Rattle.text.specs.Faults.{on_err, at_number};
ghost use Rattle.text.specs.Reading.{here, Here};
ghost use Rattle.sheets.specs.Lines.{Read, ReadsAs};
ghost use Rattle.sheets.specs.Sections.{leaves, repeat, listing, in_line, rows_over, rows_read, values_read, moves_of, move_into};
ghost use Rattle.sheets.specs.Sheet.{batch, choices};

use crate::lines::Head;
use crate::lines::reading::{choice_line, count_line, move_line, row_line, step_line};
use arrayvec::ArrayVec;
use text::faults::{At, LineFault, fault_at};
use text::reader::Reader;
use yard::batch::{Move, Step};
use yard::full::{CHOICES, MOVES, STEPS};
use yard::kind::Kind;

/// Reads one line. Its fault tells the number of the line.
pub(crate) fn in_line<T, F: FnOnce(&mut Reader) -> Result<T, LineFault>>(
    reader: &mut Reader,
    read: F,
) -> Result<T, At<LineFault>>
    requires { F.IsAlwaysCallable read }
    ensures { (r : Result T lineFault) × FnOnceReturnsAtMut F.FnOnce read reader.old r reader.new × (result ≡ on_err (at_number (here reader.old).line) r) }
{
    let line = reader.line();
    fault_at(read(reader), line)
}

/// Reads `count` lines to the end of a list.
#[tactic(auto, using(crate::proofs::Repeating::next))]
fn read_each<T: Drop, const N: usize, F: Fn(&mut Reader) -> Result<T, LineFault>>(
    reader: &mut Reader,
    count: u16,
    list: &mut ArrayVec<T, N>,
    read: F,
) -> Result<(), At<LineFault>>
    requires callable { F.IsAlwaysCallable read }
    requires room { array_vec_len list.old + count ≤ N }
    ensures { (line : Here → Result (Read T) lineFault) → ReadsAs F.Fn read line
        → leaves result list.new.items (here reader.new) ≡ repeat count (listing line) list.old.items (here reader.old) }
{
    for _ in 0..count {
        // a closure, since the borrow checker does not cover `&read` as an argument
        list.push(in_line(reader, |reader| read(reader))?);
    }
    Ok(())
}

/// Sets the values of the cells that the rows name, as far as the list has them.
#[tactic(auto, using(crate::proofs::Repeating::next))]
fn read_rows<K: Kind>(
    reader: &mut Reader,
    head: Head,
    values: &mut [K::Value],
) -> Result<(), At<LineFault>>
    ensures { leaves result values.new (here reader.new) ≡ rows_over K.Kind.rows head.size.cells head.rows values.old (here reader.old) }
{
    let mut low = 0;
    for _ in 0..head.rows {
        let row = in_line(reader, |reader| row_line::<K>(reader, head.size.cells, low))?;
        set_cell(values, row.cell, row.value);
        low = row.cell + 1;
    }
    Ok(())
}

/// Sets a cell of the list, if it has that cell.
#[tactic(auto, using(std::proofs::lemmas::List::set_past))]
fn set_cell<V: Copy>(values: &mut [V], cell: u16, value: V)
    ensures { values.new ≡ slice_set values.old cell value }
{
    // `get_mut` of a slice says nothing of what the slice then holds
    let cell = usize::from(cell);
    if cell < values.len() {
        values[cell] = value;
    }
}

/// Whether the rows are as they should be. Nothing is kept of them, since what follows may still be wrong.
#[tactic(auto, using(crate::proofs::Rising::anyhow))]
pub(crate) fn check_rows<K: Kind>(reader: &mut Reader, head: Head) -> Result<(), At<LineFault>>
    ensures { leaves result (values_read (rows_read K.Kind.rows head.size.cells head.rows (here reader.old))) (here reader.new) ≡ rows_read K.Kind.rows head.size.cells head.rows (here reader.old) }
{
    read_rows::<K>(reader, head, &mut [])
}

/// Writes the values of all cells to the front of a list, as rows that have been checked give them.
pub(crate) fn write_values<K: Kind>(reader: &mut Reader, head: Head, values: &mut [K::Value])
    requires { head.size.cells ≤ length values.old }
    ensures { is_ok (rows_read K.Kind.rows head.size.cells head.rows (here reader.old)) ≡ true → values.new ≡ values_read (rows_read K.Kind.rows head.size.cells head.rows (here reader.old)) ++ drop head.size.cells values.old }
{
    let values = &mut values[..usize::from(head.size.cells)];
    // a closure, since the borrow checker does not cover a function of a trait as an argument
    values.fill_with(|| K::unnamed());
    let _ = read_rows::<K>(reader, head, values);
}

/// A batch's moves and the steps of all of them.
#[derive(Drop)]
pub(crate) struct FoundMoves {
    pub moves: ArrayVec<Move, MOVES>,
    pub steps: ArrayVec<Step, STEPS>,
}

/// A move and its steps, after those that were found before.
fn read_move<K: Kind>(
    reader: &mut Reader,
    cells: u16,
    found: &mut FoundMoves,
) -> Result<(), At<LineFault>>
    requires { array_vec_len found.old.moves < 256 }
    ensures answer { leaves result (moves_of found.new.moves.items found.new.steps.items) (here reader.new) ≡ move_into K.Kind.rules cells (moves_of found.old.moves.items found.old.steps.items) (here reader.old) }
    ensures one { array_vec_len found.new.moves ≤ array_vec_len found.old.moves + 1 }
{
    let first = found.steps.len() as u16;
    let new = in_line(reader, |reader| move_line(reader, first))?;
    read_each(reader, new.count, &mut found.steps, |reader| {
        step_line::<K>(reader, cells)
    })?;
    found.moves.push(new);
    Ok(())
}

/// The number of moves, and all of them with their steps, which go to empty lists.
#[tactic(auto, using(crate::proofs::Repeating::next))]
pub(crate) fn read_moves<K: Kind>(
    reader: &mut Reader,
    cells: u16,
    found: &mut FoundMoves,
) -> Result<(), At<LineFault>>
    requires moves { found.old.moves.items ≡ [] }
    requires steps { found.old.steps.items ≡ [] }
    ensures { leaves result (moves_of found.new.moves.items found.new.steps.items) (here reader.new) ≡ batch K.Kind.rules cells (here reader.old) }
{
    let count = in_line(reader, |reader| count_line(reader, 'M', MOVES as u16))?;
    for _ in 0..count {
        read_move::<K>(reader, cells, found)?;
    }
    Ok(())
}

/// The number of choices, and all of them, which go to an empty list.
pub(crate) fn read_choices(
    reader: &mut Reader,
    moves: u16,
    found: &mut ArrayVec<u16, CHOICES>,
) -> Result<(), At<LineFault>>
    requires { found.old.items ≡ [] }
    ensures { leaves result found.new.items (here reader.new) ≡ choices moves (here reader.old) }
{
    let count = in_line(reader, |reader| count_line(reader, 'C', CHOICES as u16))?;
    read_each(reader, count, found, |reader| choice_line(reader, moves))
}
