//! What can be wrong with a word and with a line. A word's fault is carried whole inside its line's.

ghost use Rattle.std.specs.Prelude.{◌≡◌};
ghost use Rattle.text.specs.Faults.{at_number, on_err, passing};
ghost use Rattle.text.specs.declared.faults.LineFault.TheVariants as lineFault;

/// A fault of a word, by its number in the table.
#[derive(Clone, Copy, Debug, PartialEq)]
pub enum WordFault {
    NotNumber = 1,
    TooLarge = 2,
    OutOfRange = 4,
    WrongLetter = 5,
    /// an occupancy without rows
    NoRows = 6,
}

/// A fault of the word or the line with this number, from 1.
#[derive(Clone, Copy, Debug, PartialEq)]
pub struct At<F> {
    pub number: usize,
    pub fault: F,
}

#[derive(Clone, Copy, Debug, PartialEq)]
pub enum LineFault {
    /// the line or its LF is lacking, or bytes follow the last line
    Lacking,
    /// other words than are due, or other spaces than one between two words
    Shape,
    /// the cells of the rows do not rise
    NotRising,
    TooManySteps,
    Word(At<WordFault>),
}

impl From<At<WordFault>> for LineFault {
    ghost from_gives = { λ e r. r ≡ lineFault.Word e };

    fn from(e: At<WordFault>) -> LineFault {
        LineFault::Word(e)
    }
}

/// The same result, whose fault tells the number of its word or line.
pub fn fault_at<T, F>(r: Result<T, F>, number: usize) -> Result<T, At<F>>
    ensures { result ≡ on_err (at_number number) r }
{
    r.map_err(|fault| At { number, fault })
}

/// The test that a word of a line has to pass; else it has this fault.
pub fn passing(passes: bool, word: usize, fault: WordFault) -> Result<(), At<WordFault>>
    ensures { result ≡ passing passes (at_number word fault) tt }
{
    if passes {
        Ok(())
    } else {
        Err(At {
            number: word,
            fault,
        })
    }
}
