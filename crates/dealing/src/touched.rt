//! How many clusters a move touches.

/// No cluster, for want of active cells; one, known by its root; or several.
#[derive(Clone, Copy)]
pub enum Touched {
    Nothing,
    One(usize),
    Several,
}
