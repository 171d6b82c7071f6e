//! Reading one line of a sheet.

ghost use Rattle.std.specs.Prelude.{◌≡◌, ◌+◌, ◌-◌, ◌<◌, ◌≤◌, IfOk};
ghost use Rattle.text.specs.Reading.{here};
ghost use Rattle.sheets.specs.Lines.{answered, kind_line, count_line, occupancy_line, row_value, row_line, move_line, step_line, choice_line};

use super::{Row, Size};
use text::faults::{LineFault, WordFault, fault_at, passing};
use text::reader::Reader;
use yard::batch::{Move, Order, Step};
use yard::full::{CELLS, MOVE_STEPS, SHARE, STEPS};
use yard::kind::Kind;

/// The first line: the kind's letter, the cells and the share.
pub(crate) fn kind_line(reader: &mut Reader, letter: char) -> Result<Size, LineFault>
    ensures answer { answered result (here reader.new) ≡ kind_line letter (here reader.old) }
    ensures bound { IfOk result (λ size. size.cells ≤ 1024) }
{
    reader.line_there(3)?;
    reader.letter_is(1, letter)?;
    let cells = reader.number_within(2, 1, CELLS as u16)?;
    let share = reader.number_within(3, 1, SHARE)?;
    Ok(Size { cells, share })
}

/// The first line of a section: its letter, and how many lines come.
pub(crate) fn count_line(reader: &mut Reader, letter: char, most: u16) -> Result<u16, LineFault>
    ensures answer { answered result (here reader.new) ≡ count_line letter most (here reader.old) }
    ensures bound { IfOk result (λ n. n ≤ most) }
{
    reader.line_there(2)?;
    reader.letter_is(1, letter)?;
    Ok(reader.number_within(2, 0, most)?)
}

/// The first line of the occupancy, which has at least one row.
pub(crate) fn occupancy_line(reader: &mut Reader) -> Result<u16, LineFault>
    ensures { answered result (here reader.new) ≡ occupancy_line (here reader.old) }
{
    let count = count_line(reader, 'O', CELLS as u16)?;
    passing(count > 0, 2, WordFault::NoRows)?;
    Ok(count)
}

/// The words of a row after its cell, as a value.
#[tactic(auto, using(crate::proofs::Valuing::next_word))]
fn row_value<K: Kind>(reader: &mut Reader) -> Result<K::Value, LineFault>
    ensures { answered result (here reader.new) ≡ row_value K.Kind.rows (K.Kind.rows.words - 1) 1 K.Kind.rows.unnamed (here reader.old) }
{
    let mut value = K::unnamed();
    for place in 1..K::ROW_WORDS {
        let word = reader.number(place + 1)?;
        let longer = K::with_word(value, place, word).ok_or(WordFault::OutOfRange);
        value = fault_at(longer, place + 1)?;
    }
    Ok(value)
}

/// A row: its cell, which is at least `low`, and its value.
pub(crate) fn row_line<K: Kind>(
    reader: &mut Reader,
    cells: u16,
    low: u16,
) -> Result<Row<K::Value>, LineFault>
    ensures answer { answered result (here reader.new) ≡ row_line K.Kind.rows cells low (here reader.old) }
    ensures bound { IfOk result (λ row. row.cell < cells) }
{
    reader.line_there(K::ROW_WORDS)?;
    let cell = reader.number_below(1, cells)?;
    let value = row_value::<K>(reader)?;
    if cell < low {
        return Err(LineFault::NotRising);
    }
    Ok(Row { cell, value })
}

/// A move's first line; `first` steps stand before it.
pub(crate) fn move_line(reader: &mut Reader, first: u16) -> Result<Move, LineFault>
    ensures answer { answered result (here reader.new) ≡ move_line first (here reader.old) }
    ensures bound { IfOk result (λ m. (m.first ≡ first) × (first + m.count ≤ 1024)) }
{
    reader.line_there(2)?;
    let label = reader.number_within(1, 1, 65535)?;
    let count = reader.number_within(2, 1, MOVE_STEPS)?;
    if usize::from(first) + usize::from(count) > STEPS {
        return Err(LineFault::TooManySteps);
    }
    Ok(Move {
        label,
        first,
        count,
    })
}

pub(crate) fn step_line<K: Kind>(reader: &mut Reader, cells: u16) -> Result<Step, LineFault>
    ensures { answered result (here reader.new) ≡ step_line K.Kind.rules cells (here reader.old) }
{
    reader.line_there(3)?;
    let letter = reader.letter(1)?;
    passing(K::has_letter(letter), 1, WordFault::WrongLetter)?;
    let cell = reader.number_below(2, cells)?;
    let number = reader.number(3)?;
    let order = Order { letter, number };
    passing(K::knows(order), 3, WordFault::OutOfRange)?;
    Ok(Step { cell, order })
}

/// A choice: the place of one of the moves.
pub(crate) fn choice_line(reader: &mut Reader, moves: u16) -> Result<u16, LineFault>
    ensures { answered result (here reader.new) ≡ choice_line moves (here reader.old) }
{
    reader.line_there(1)?;
    Ok(reader.number_below(1, moves)?)
}
