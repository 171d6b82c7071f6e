//! What can be wrong with a sheet. A line's fault is carried whole inside the sheet's.

ghost use Rattle.std.specs.Prelude.{◌≡◌};
ghost use Rattle.sheets.specs.declared.faults.SheetFault.TheVariants as sheetFault;

use text::faults::{At, LineFault};

#[derive(Clone, Copy, Debug, PartialEq)]
pub enum SheetFault {
    /// a list of the caller's is shorter than its full length
    ListTooShort,
    TooLong,
    Line(At<LineFault>),
}

impl From<At<LineFault>> for SheetFault {
    ghost from_gives = { λ e r. r ≡ sheetFault.Line e };

    fn from(e: At<LineFault>) -> SheetFault {
        SheetFault::Line(e)
    }
}
