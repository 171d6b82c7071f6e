//! A kind of order: what its cells hold, and what its orders make of that.

ghost use Rattle.std.specs.Prelude.{◌≡◌, ℕ, Bool};
ghost use Rattle.yard.specs.Rules.{Rules, Looks, asked};
ghost use Rattle.yard.specs.Rows.{Rows, ToldAgain};
ghost use Rattle.yard.specs.Equal.{TellsEqual};
ghost use Rattle.yard.specs.Told.{made};

use crate::batch::Order;
use crate::cause::Cause;

pub trait Kind {
    /// What a cell holds.
    type Value: Copy;

    /// The words of an occupancy row, the cell among them.
    const ROW_WORDS: usize;

    ghost ROW_WORDS: { ℕ };

    ghost rules: { Rules Self.Value };

    ghost rows: { Rows Self.Value };

    ghost equals: { Self.Value → Self.Value → Bool };

    /// The letter that a sheet of this kind begins with.
    fn sheet_letter() -> char
        ensures { result ≡ rows.letter };

    /// The value of a cell that no row names.
    fn unnamed() -> Self::Value
        ensures { result ≡ rows.unnamed };

    /// The value with one word of its row more: the word at `place`, where the cell is at place 0. `None` where the word is out of range.
    fn with_word(value: Self::Value, place: usize, word: u16) -> Option<Self::Value>
        ensures { result ≡ rows.takes place word value };

    /// The word at `place` of the value's row.
    fn word_at(value: Self::Value, place: usize) -> u16
        ensures { result ≡ rows.tells place value };

    fn equal(one: Self::Value, other: Self::Value) -> bool
        ensures { result ≡ equals one other };

    /// Whether some order of the kind has this letter.
    fn has_letter(letter: char) -> bool
        ensures { result ≡ rules.letters letter };

    fn knows(order: Order) -> bool
        ensures { result ≡ rules.knows order.letter order.number };

    fn writes(order: Order) -> bool
        ensures { result ≡ rules.writes order.letter order.number };

    /// What an order makes of a value, or the cause why it cannot. `None` where the kind does not know the order.
    fn apply(order: Order, value: Self::Value) -> Option<Result<Self::Value, Cause>>
        ensures { made result ≡ asked rules order.letter order.number value };

    // a row has as many words as the constant says
    ghost row_words: { ROW_WORDS ≡ rows.words };

    // a looking order that passes gives back the value that it saw
    ghost looks: { Looks rules };

    // two values are told to be equal just where they are
    ghost equality: { TellsEqual equals };

    // a row's words can be told again from the value that was made of them
    ghost retells: { ToldAgain rows };
}
