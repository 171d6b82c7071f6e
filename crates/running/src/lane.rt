//! A lane that is made from its row after a check.

ghost use Rattle.std.specs.Prelude.{◌≤◌};

pub mod rows;

use yard::run::LaneRow;

/// A lane whose next place is not past its end.
#[derive(Clone, Copy, Debug, PartialEq)]
pub struct Lane {
    pub row: LaneRow,
    ghost within: { row.next ≤ row.end },
}
