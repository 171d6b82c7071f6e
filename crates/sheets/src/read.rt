//! Reading a sheet into lists of the caller's.

ghost use Rattle.std.specs.Prelude.{◌≡◌, ◌≤◌, length};
ghost use Rattle.yard.specs.Fronts.{laid};
ghost use Rattle.sheets.specs.Lent.{lent};
ghost use Rattle.sheets.specs.Sheet.{answering, read_into};

use crate::counts::Counts;
use crate::faults::SheetFault;
use crate::lists::SheetLists;
use crate::sections::{FoundMoves, write_values};
use crate::sheet::{Found, read_body, read_head};
use arrayvec::ArrayVec;
use text::reader::Reader;
use yard::kind::Kind;

/// The most bytes that a sheet may have.
pub const MOST_BYTES: usize = 32768;

/// Reads a sheet of the kind `K`. What it holds goes to the fronts of the lists; a refusal leaves every list as it was.
pub fn read<K: Kind>(sheet: &[u8], lists: &mut SheetLists<K::Value>) -> Result<Counts, SheetFault>
    ensures answer { answering result (lent lists.new) ≡ read_into K.Kind.rules K.Kind.rows sheet.now (lent lists.old) }
    ensures values { lists.new.values.ghost_name ≡ lists.old.values.ghost_name }
    ensures moves { lists.new.moves.ghost_name ≡ lists.old.moves.ghost_name }
    ensures steps { lists.new.steps.ghost_name ≡ lists.old.steps.ghost_name }
    ensures choices { lists.new.choices.ghost_name ≡ lists.old.choices.ghost_name }
{
    if !lists.are_full() {
        return Err(SheetFault::ListTooShort);
    }
    if sheet.len() > MOST_BYTES {
        return Err(SheetFault::TooLong);
    }
    let mut reader = Reader::new(sheet);
    let head = read_head::<K>(&mut reader)?;
    let mut at_rows = reader;
    let mut found = Found {
        batch: FoundMoves {
            moves: ArrayVec::new(),
            steps: ArrayVec::new(),
        },
        choices: ArrayVec::new(),
    };
    read_body::<K>(&mut reader, head, &mut found)?;
    // all is right: from here on the lists are written
    write_values::<K>(&mut at_rows, head, lists.values);
    put_front(lists.moves, found.batch.moves.as_slice());
    put_front(lists.steps, found.batch.steps.as_slice());
    put_front(lists.choices, found.choices.as_slice());
    Ok(Counts {
        cells: head.size.cells,
        share: head.size.share,
        rows: head.rows,
        moves: found.batch.moves.len() as u16,
        steps: found.batch.steps.len() as u16,
        choices: found.choices.len() as u16,
    })
}

// What was found goes to the front of the list; the rest of the list stays.
fn put_front<T: Copy>(list: &mut [T], found: &[T])
    requires { length found.now ≤ length list.old }
    ensures { list.new ≡ laid found.now list.old }
{
    list[..found.len()].copy_from_slice(found);
}
