//! What the reader gives: whether its line is as it should be, and the words of the line, one after another.

ghost use Rattle.std.specs.Prelude.{◌≡◌, ◌≤◌, length as size};
ghost use Rattle.text.specs.Lines.{line_there, word_length, word_of};
ghost use Rattle.text.specs.Reading.{WentPastWord, here, number_at, number_within, number_below, letter_at, letter_is};
ghost use Rattle.text.specs.Words.{seen, sorted};

use super::Reader;
use crate::faults::{At, LineFault, WordFault, fault_at, passing};
use crate::lines::{LF, first_line, first_word, has_words};
use crate::words::{Word, sort_word};

impl<'a> Reader<'a> {
    /// Whether the line that begins here is there, with its LF, and has `count` words.
    pub fn line_there(&self, count: usize) -> Result<(), LineFault>
        ensures { result ≡ line_there count (here self.now).bytes }
    {
        let line = first_line(self.rest()).ok_or(LineFault::Lacking)?;
        if !has_words(line, count) {
            return Err(LineFault::Shape);
        }
        Ok(())
    }

    /// The word that begins here, and on to the next.
    pub fn next_word(&mut self) -> Word<'a>
        ensures word { seen result ≡ sorted (word_of (here self.old).bytes) self.old.place }
        ensures moved { WentPastWord self.old self.new }
    {
        let place = self.place;
        let part = first_word(self.rest());
        self.pass(part.len());
        sort_word(part, place)
    }

    // Past the next word, which has `length` bytes, and the space or LF after it.
    fn pass(&mut self, length: usize)
        requires word { length ≡ word_length (here self.old).bytes }
        requires within { length ≤ size (here self.old).bytes }
        ensures moved { WentPastWord self.old self.new }
    {
        let stop = self.rest().get(length);
        self.place += length;
        if let Some(byte) = stop {
            self.place += 1;
            if *byte == LF {
                self.line += 1;
            }
        }
    }

    /// The next word, which is word `word` of its line, as a number.
    pub fn number(&mut self, word: usize) -> Result<u16, At<WordFault>>
        ensures answer { result ≡ number_at word (here self.old) }
        ensures moved { WentPastWord self.old self.new }
    {
        fault_at(self.next_word().number(), word)
    }

    /// A number from `least` to `most`.
    pub fn number_within(
        &mut self,
        word: usize,
        least: u16,
        most: u16,
    ) -> Result<u16, At<WordFault>>
        ensures answer { result ≡ number_within word least most (here self.old) }
        ensures moved { WentPastWord self.old self.new }
    {
        let number = self.number(word)?;
        passing(
            (least..=most).contains(&number),
            word,
            WordFault::OutOfRange,
        )?;
        Ok(number)
    }

    /// A number below `end`.
    pub fn number_below(&mut self, word: usize, end: u16) -> Result<u16, At<WordFault>>
        ensures answer { result ≡ number_below word end (here self.old) }
        ensures moved { WentPastWord self.old self.new }
    {
        let number = self.number(word)?;
        passing(number < end, word, WordFault::OutOfRange)?;
        Ok(number)
    }

    /// The next word as a letter.
    pub fn letter(&mut self, word: usize) -> Result<char, At<WordFault>>
        ensures answer { result ≡ letter_at word (here self.old) }
        ensures moved { WentPastWord self.old self.new }
    {
        fault_at(self.next_word().letter(), word)
    }

    /// The next word has to be this letter.
    pub fn letter_is(&mut self, word: usize, letter: char) -> Result<char, At<WordFault>>
        ensures answer { result ≡ letter_is word letter (here self.old) }
        ensures moved { WentPastWord self.old self.new }
    {
        let found = self.letter(word)?;
        passing(found == letter, word, WordFault::WrongLetter)?;
        Ok(found)
    }
}
