//! A word of a sheet: a letter, a number or an unknown run, each a part of the sheet with its place.

ghost use Rattle.std.specs.Prelude.{◌≡◌};
ghost use Rattle.text.specs.Words.{seen, sorted, number_seen, letter_seen};

use crate::faults::WordFault;
use crate::numerals::{is_numeral, value_of};

/// What the bytes of a word are: one capital letter, a numeral, or neither.
#[derive(Clone, Copy, Debug, PartialEq)]
pub enum Sort {
    Letter,
    Number,
    Unknown,
}

/// A word by its bytes, which are part of the sheet, and the place of the first of them.
#[derive(Clone, Copy)]
pub struct Word<'a> {
    pub sort: Sort,
    pub part: &'a [u8],
    pub place: usize,
}

/// The word that the part of the sheet at `place` is.
pub(crate) fn sort_word<'a>(part: &'a [u8], place: usize) -> Word<'a>
    ensures { seen result ≡ sorted part.now place }
{
    let sort = match part {
        [b'A'..=b'Z'] => Sort::Letter,
        _ if is_numeral(part) => Sort::Number,
        _ => Sort::Unknown,
    };
    Word { sort, part, place }
}

impl Word<'_> {
    /// The number that the word writes.
    pub fn number(self) -> Result<u16, WordFault>
        ensures { result ≡ number_seen (seen self.entry) }
    {
        match self.sort {
            Sort::Number => value_of(self.part),
            Sort::Letter | Sort::Unknown => Err(WordFault::NotNumber),
        }
    }

    /// The letter that the word is.
    pub fn letter(self) -> Result<char, WordFault>
        ensures { result ≡ letter_seen (seen self.entry) }
    {
        match (self.sort, self.part) {
            (Sort::Letter, [byte]) => Ok(char::from(*byte)),
            _ => Err(WordFault::WrongLetter),
        }
    }
}
