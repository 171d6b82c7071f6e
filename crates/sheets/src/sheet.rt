//! Reading a whole sheet, section by section.

ghost use Rattle.std.specs.Prelude.{◌≡◌, ◌≤◌, [], Ok, IfOk};
ghost use Rattle.text.specs.Faults.{and_then};
ghost use Rattle.text.specs.Reading.{here};
ghost use Rattle.sheets.specs.Lines.{answered};
ghost use Rattle.sheets.specs.Sections.{rows_read, values_read};
ghost use Rattle.sheets.specs.Sheet.{head, body, sheet_by};

use crate::lines::Head;
use crate::lines::reading::{kind_line, occupancy_line};
use crate::sections::{FoundMoves, check_rows, in_line, read_choices, read_moves};
use arrayvec::ArrayVec;
use text::faults::{At, LineFault, fault_at};
use text::reader::Reader;
use yard::full::CHOICES;
use yard::kind::Kind;

/// What follows the rows of a sheet.
#[derive(Drop)]
pub(crate) struct Found {
    pub batch: FoundMoves,
    pub choices: ArrayVec<u16, CHOICES>,
}

/// The two lines before the rows.
pub(crate) fn read_head<K: Kind>(reader: &mut Reader) -> Result<Head, At<LineFault>>
    ensures answer { answered result (here reader.new) ≡ head K.Kind.rows.letter (here reader.old) }
    ensures bound { IfOk result (λ head. head.size.cells ≤ 1024) }
{
    let size = in_line(reader, |reader| kind_line(reader, K::sheet_letter()))?;
    let rows = in_line(reader, occupancy_line)?;
    Ok(Head { size, rows })
}

/// All that follows the head: the rows are checked, the rest goes to empty lists.
// lent, since a list of an array is as long as its array, and would be copied with each return
pub(crate) fn read_body<K: Kind>(
    reader: &mut Reader,
    head: Head,
    found: &mut Found,
) -> Result<(), At<LineFault>>
    requires moves { found.old.batch.moves.items ≡ [] }
    requires steps { found.old.batch.steps.items ≡ [] }
    requires choices { found.old.choices.items ≡ [] }
    ensures { and_then result (λ _. Ok (sheet_by head (values_read (rows_read K.Kind.rows head.size.cells head.rows (here reader.old))) found.new)) ≡ body K.Kind.rules K.Kind.rows head (here reader.old) }
{
    check_rows::<K>(reader, head)?;
    read_moves::<K>(reader, head.size.cells, &mut found.batch)?;
    let moves = found.batch.moves.len() as u16;
    read_choices(reader, moves, &mut found.choices)?;
    if !reader.at_end() {
        return fault_at(Err(LineFault::Lacking), reader.line());
    }
    Ok(())
}
