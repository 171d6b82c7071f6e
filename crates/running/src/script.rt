//! What no call of a run alters.

use dealing::opening::Opening;
use yard::batch::Batch;

/// A batch with its opening and its line-up. All of it is only read.
#[derive(Clone, Copy)]
pub struct Script<'a> {
    pub opening: Opening,
    pub batch: Batch<'a>,
    pub line_up: &'a [u16],
}
