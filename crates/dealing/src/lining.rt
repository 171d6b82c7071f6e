//! The line-up: the queues in order and then the rest list, with a row for each lane.

ghost use Rattle.std.specs.Prelude.{◌≡◌, ◌+◌, ◌<◌, ◌≤◌, ◌++◌, length, take, drop};
ghost use Rattle.yard.specs.Fronts.{laid};
ghost use Rattle.dealing.specs.Lanes.{places_from, dealt_of, line_up_of, lane_rows, row_from};

use yard::run::LaneRow;

/// Writes the moves of all lanes to the front of the line-up, and the rows of the lanes to the front of theirs.
pub(crate) fn line_up_moves(
    lane_of: &[u16],
    queues: usize,
    line_up: &mut [u16],
    lanes: &mut [LaneRow],
)
    requires few { length lane_of.now ≤ 256 }
    requires queues { queues ≤ 256 }
    requires line_up { 256 ≤ length line_up.old }
    requires lanes { 257 ≤ length lanes.old }
    ensures line_up { line_up.new ≡ laid (line_up_of (dealt_of lane_of.now queues)) line_up.old }
    ensures lanes { lanes.new ≡ laid (lane_rows (dealt_of lane_of.now queues)) lanes.old }
{
    let mut at = 0;
    for (q, row) in lanes[1..=queues].iter_mut().enumerate() {
        let end = line_up_lane(lane_of, (q + 1) as u16, line_up, at);
        *row = new_row(at, end);
        at = end;
    }
    let end = line_up_lane(lane_of, 0, line_up, at);
    lanes[0] = new_row(at, end);
}

// Writes the moves of a lane into the line-up, from a place on. The place after them is returned.
fn line_up_lane(lane_of: &[u16], lane: u16, line_up: &mut [u16], start: usize) -> usize
    requires few { length lane_of.now ≤ 256 }
    requires room { start + length (places_from 0 lane lane_of.now) ≤ length line_up.old }
    ensures end { result ≡ start + length (places_from 0 lane lane_of.now) }
    ensures lined { take result line_up.new ≡ take start line_up.old ++ places_from 0 lane lane_of.now }
    ensures kept { drop result line_up.new ≡ drop result line_up.old }
{
    let mut at = start;
    // the places of other lanes are passed over, so that the next entry is counted
    for (k, l) in lane_of.iter().enumerate() {
        if *l == lane {
            line_up[at] = k as u16;
            at += 1;
        }
    }
    at
}

// The row of a lane of which no step is taken.
fn new_row(first: usize, end: usize) -> LaneRow
    requires first { first < 65536 }
    requires end { end < 65536 }
    ensures { result ≡ row_from first end }
{
    LaneRow {
        first: first as u16,
        next: first as u16,
        end: end as u16,
        taken: 0,
    }
}
