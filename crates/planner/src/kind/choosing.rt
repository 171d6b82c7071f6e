//! The first byte of a sheet says its kind. Where it fits none, the reader of stands says what is wrong.

ghost use Rattle.std.specs.Prelude.{◌≡◌};
ghost use Rattle.planner.specs.Kind.{kind_of};

use super::YardKind;

/// The kind whose reader is to answer.
pub fn kind_of(sheet: &[u8]) -> YardKind
    ensures { result ≡ kind_of sheet.now }
{
    match sheet {
        [b'F', ..] => YardKind::Feeders,
        _ => YardKind::Stands,
    }
}
