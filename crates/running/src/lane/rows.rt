//! Lanes and their rows: the check, where a lane stands, and the rows that a step leaves.

ghost use Rattle.std.specs.Prelude.{◌≡◌, ◌<◌, ◌==◌, nat_lt};
ghost use Rattle.std.specs.Option.{option_map};
ghost use Rattle.books.specs.Scripts.{onward, over};
ghost use Rattle.running.specs.Lanes.{row_in, checked_row};

use super::Lane;
use yard::run::LaneRow;

impl Lane {
    /// The lane of a row, unless the row is past its end.
    pub fn of_row(row: LaneRow) -> Option<Lane>
        ensures { option_map row_in result ≡ checked_row row }
    {
        if row.next <= row.end {
            Some(Lane { row })
        } else {
            None
        }
    }

    pub fn is_at_end(self) -> bool
        ensures { result ≡ (self.row.next == self.row.end) }
    {
        self.row.next == self.row.end
    }

    pub fn has_step_left(self) -> bool
        ensures { result ≡ nat_lt self.row.next self.row.end }
    {
        self.row.next < self.row.end
    }

    /// The row after a step that leaves its move under way.
    pub(crate) fn after_step(self) -> LaneRow
        requires { self.row.taken < 65535 }
        ensures { result ≡ onward (row_in self) }
    {
        LaneRow {
            taken: self.row.taken + 1,
            ..self.row
        }
    }

    /// The row after the end of a move.
    pub(crate) fn after_move(self) -> LaneRow
        requires { self.row.next < self.row.end }
        ensures { result ≡ over (row_in self) }
    {
        LaneRow {
            next: self.row.next + 1,
            taken: 0,
            ..self.row
        }
    }
}
