//! Where lines and words end, and whether a line has the words that are due.

ghost use Rattle.std.specs.Prelude.{◌≡◌, ◌≤◌, length, Some, None, MatchOption};
ghost use Rattle.text.specs.Lines.{has_words, line_of, word_length, word_of};

/// The byte that ends a line.
pub(crate) const LF: u8 = b'\n';

/// The byte between two words.
pub(crate) const SPACE: u8 = b' ';

/// The line that the bytes begin with, without its LF, if the LF is there.
pub(crate) fn first_line(bytes: &[u8]) -> Option<&[u8]>
    ensures { MatchOption result (line_of bytes.now ≡ None) (λ line. line_of bytes.now ≡ Some line.now) }
{
    let end = bytes.iter().position(|byte| *byte == LF)?;
    Some(&bytes[..end])
}

/// The word that the bytes begin with.
pub(crate) fn first_word(bytes: &[u8]) -> &[u8]
    ensures word { result.now ≡ word_of bytes.now }
    ensures long { length result.now ≡ word_length bytes.now }
    ensures bound { length result.now ≤ length bytes.now }
{
    let end = bytes
        .iter()
        .position(|byte| *byte == SPACE || *byte == LF)
        .unwrap_or(bytes.len());
    &bytes[..end]
}

/// Whether the line has just `count` words, with one space between two of them and none elsewhere.
pub(crate) fn has_words(line: &[u8], count: usize) -> bool
    ensures { result ≡ has_words count line.now }
{
    let mut words: usize = 0;
    for word in line.split(|byte| *byte == SPACE) {
        if word.is_empty() {
            return false;
        }
        words += 1;
    }
    words == count
}
