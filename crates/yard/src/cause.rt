//! Why a known order fails on the value that it meets.

ghost use Rattle.std.specs.Prelude.{◌≡◌};
ghost use Rattle.yard.specs.Numbers.{cause_number};

#[derive(Clone, Copy, Debug, PartialEq)]
pub enum Cause {
    NoTram = 23,
    OtherTram = 24,
    StandTaken = 25,
    NotAsLooked = 26,
    AboveLimit = 27,
    BelowZero = 28,
    NoHeadroom = 29,
}

impl Cause {
    /// The cause's number in the table.
    pub fn number(self) -> u8
        ensures { result ≡ cause_number self }
    {
        self as u8
    }
}
