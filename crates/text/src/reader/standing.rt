//! Where the reader stands.

ghost use Rattle.std.specs.Prelude.{◌≡◌, ◌+◌, length};
ghost use Rattle.text.specs.Reading.{here, start, nothing_left};

use super::Reader;

impl<'a> Reader<'a> {
    pub fn new(sheet: &'a [u8]) -> Reader<'a>
        ensures { here result ≡ start sheet.now }
    {
        Reader {
            sheet,
            place: 0,
            line: 1,
        }
    }

    /// The number of the line, from 1.
    pub fn line(&self) -> usize
        ensures { result ≡ (here self.now).line }
    {
        self.line
    }

    pub fn at_end(&self) -> bool
        ensures { result ≡ nothing_left (here self.now) }
    {
        self.rest().is_empty()
    }

    // The bytes from here on.
    pub(crate) fn rest(&self) -> &'a [u8]
        ensures bytes { result.now ≡ (here self.now).bytes }
        ensures long { self.now.place + length result.now ≡ length self.now.sheet.now }
    {
        &self.sheet[self.place..]
    }
}
