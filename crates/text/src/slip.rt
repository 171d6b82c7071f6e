//! Where a sheet is wrong, and the line that tells of it.

ghost use Rattle.std.specs.Prelude.{Some};
ghost use Rattle.text.specs.Slips.{slip_text};

use std::fmt;

/// Where a sheet is wrong: the number of the refusal, the line and the word.
#[derive(Clone, Copy, Debug, PartialEq)]
pub struct Slip {
    // a number and no enum, since a slip is what is printed
    pub number: u8,
    pub line: usize,
    pub word: usize,
}

impl fmt::Display for Slip {
    ghost output = { λ slip. Some (slip_text slip) };

    fn fmt<W: fmt::Write>(&self, f: &mut fmt::Formatter<W>) -> fmt::Result {
        let Slip { number, line, word } = *self;
        write!(f, "N {number} {line} {word}")
    }
}
