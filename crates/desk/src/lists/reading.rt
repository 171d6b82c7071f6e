//! Reading a sheet onto a desk.

ghost use Rattle.std.specs.Prelude.{◌≡◌};
ghost use Rattle.sheets.specs.Sheet.{answering, read_into, lists};
ghost use Rattle.desk.specs.Empty.{on_desk};

use super::Desk;
use sheets::counts::Counts;
use sheets::faults::SheetFault;
use sheets::lists::SheetLists;
use sheets::read::read;
use yard::batch::{Move, Step};
use yard::kind::Kind;

/// Reads a sheet of the kind `K` onto a desk. A refusal leaves the desk as it was.
pub fn read_onto<K: Kind>(sheet: &[u8], desk: &mut Desk<K::Value>) -> Result<Counts, SheetFault>
    ensures { answering result (on_desk desk.new) ≡ read_into K.Kind.rules K.Kind.rows sheet.now (on_desk desk.old) }
{
    read_lists::<K>(
        sheet,
        &mut desk.values,
        &mut desk.moves,
        &mut desk.steps,
        &mut desk.choices,
    )
}

// The lists come one by one: of a vector that is lent inside a struct, a proof does not know what it holds afterwards.
fn read_lists<K: Kind>(
    sheet: &[u8],
    values: &mut [K::Value],
    moves: &mut [Move],
    steps: &mut [Step],
    choices: &mut [u16],
) -> Result<Counts, SheetFault>
    ensures { answering result (lists values.new moves.new steps.new choices.new)
        ≡ read_into K.Kind.rules K.Kind.rows sheet.now (lists values.old moves.old steps.old choices.old) }
{
    let mut lent = SheetLists {
        values,
        moves,
        steps,
        choices,
    };
    read::<K>(sheet, &mut lent)
}
