//! Why a call is refused.

ghost use Rattle.std.specs.Prelude.{◌≡◌};
ghost use Rattle.yard.specs.Numbers.{refusal_number};

#[derive(Clone, Copy, Debug, PartialEq)]
pub enum Refusal {
    /// a list for results is too short
    ResultTooShort = 11,
    /// moves that are not 1 to 8 steps each, end to end over all the steps, or too many moves, steps or choices
    MisshapenBatch = 12,
    /// share or cells out of range
    OutOfRange = 13,
    /// an order that the kind does not know, or a cell not below the cells
    UnknownOrder = 14,
    /// a choice that names no move
    NoSuchMove = 15,
    /// a list that open writes is too short
    WorkTooShort = 16,
    /// a board with fewer cells than the sheet
    BoardTooSmall = 17,
    /// lists or a board that are not those of this run
    NotThisRun = 18,
    NoSuchLane = 19,
    LaneAtEnd = 20,
    QueuesBusy = 21,
    NoSuchCell = 22,
}

impl Refusal {
    /// The refusal's number in the table.
    pub fn number(self) -> u8
        ensures { result ≡ refusal_number self }
    {
        self as u8
    }
}
