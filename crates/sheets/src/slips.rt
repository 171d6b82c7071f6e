//! A sheet's fault as users see it: number, line and word.

ghost use Rattle.std.specs.Prelude.{◌≡◌};
ghost use Rattle.sheets.specs.Faults.{told};

use crate::faults::SheetFault;
use text::faults::LineFault;
use text::slip::Slip;

impl From<SheetFault> for Slip {
    ghost from_gives = { λ fault slip. slip ≡ told fault };

    fn from(fault: SheetFault) -> Slip {
        let (number, line, word) = match fault {
            SheetFault::TooLong => (10, 0, 0),
            SheetFault::ListTooShort => (11, 0, 0),
            SheetFault::Line(line) => match line.fault {
                LineFault::Shape => (3, line.number, 0),
                LineFault::NotRising => (7, line.number, 0),
                LineFault::TooManySteps => (8, line.number, 0),
                LineFault::Lacking => (9, line.number, 0),
                LineFault::Word(word) => (word.fault as u8, line.number, word.number),
            },
        };
        Slip { number, line, word }
    }
}
