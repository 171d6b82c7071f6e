//! A run of a script on a board and lists that are lent to it.

use crate::script::Script;
use yard::board::Board;
use yard::kind::Kind;
use yard::run::{LaneRow, Outcome};

/// What the calls of a run need: the script, which they only read, and the board and the lists, which they alter.
// The board has a lifetime of its own: a caller that lends its own lists beside a lent board is not covered at one.
#[derive(Drop)]
pub struct Run<'a, 'b, 'c, K: Kind, B: Board<Value = K::Value>> {
    pub script: Script<'a>,
    pub board: &'b mut B,
    pub saved: &'c mut [K::Value],
    pub lanes: &'c mut [LaneRow],
    pub outcomes: &'c mut [Outcome],
}
