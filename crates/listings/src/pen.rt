//! A pen that writes bytes one after the other into a lent list.

ghost use Rattle.std.specs.Prelude.{◌≡◌, [], ◌∷◌, decimal};
ghost use Rattle.listings.specs.Lines.{spaced};
ghost use Rattle.listings.specs.Pens.{standing, penned, wrote};

use itoa::Buffer;

/// The next byte goes to `at`, if the page has that place. Bytes past the page are only counted.
#[derive(Drop)]
pub(crate) struct Pen<'a> {
    page: &'a mut [u8],
    at: usize,
}

impl<'a> Pen<'a> {
    pub(crate) fn over(page: &'a mut [u8]) -> Pen<'a>
        ensures { penned result ≡ standing page.old 0 page.entry.ghost_name }
    {
        Pen { page, at: 0 }
    }

    pub(crate) fn put(&mut self, byte: u8)
        ensures { penned self.new ≡ wrote (byte ∷ []) (penned self.old) }
    {
        // not by `get_mut`: of a slice it promises nothing about what is written through it
        if self.at < self.page.len() {
            self.page[self.at] = byte;
        }
        self.at = self.at.saturating_add(1);
    }

    pub(crate) fn write(&mut self, text: &[u8])
        ensures { penned self.new ≡ wrote text.now (penned self.old) }
    {
        for byte in text {
            self.put(*byte);
        }
    }

    /// How many bytes were put, as far as a count goes.
    pub(crate) fn count(&self) -> usize
        ensures { result ≡ (penned self.now).at }
    {
        self.at
    }

    /// A number, without leading zeros.
    pub(crate) fn number(&mut self, number: usize)
        ensures { penned self.new ≡ wrote (decimal number) (penned self.old) }
    {
        // not by `write!`: by its contract it may fail, and a pen never does
        let mut digits = Buffer::new();
        self.write(digits.format(number).as_bytes());
    }

    /// A space, and a number.
    pub(crate) fn word(&mut self, number: usize)
        ensures { penned self.new ≡ wrote (32 ∷ decimal number) (penned self.old) }
    {
        self.put(b' ');
        self.number(number);
    }

    pub(crate) fn end_line(&mut self)
        ensures { penned self.new ≡ wrote (10 ∷ []) (penned self.old) }
    {
        self.put(b'\n');
    }

    /// The first line of a section: its letter, and how many lines follow.
    pub(crate) fn head(&mut self, letter: u8, count: usize)
        ensures { penned self.new ≡ wrote (letter ∷ spaced (count ∷ [])) (penned self.old) }
    {
        self.put(letter);
        self.last_words(&[count]);
    }

    /// The last words of a line, and its end.
    #[tactic(auto, using(crate::proofs::Penned::turns))]
    pub(crate) fn last_words(&mut self, words: &[usize])
        ensures { penned self.new ≡ wrote (spaced words.now) (penned self.old) }
    {
        for word in words {
            self.word(*word);
        }
        self.end_line();
    }
}
