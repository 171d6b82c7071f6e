//! Special clusters, which spot makes of chosen moves.

/// A cell of a special cluster, by which it is known as it grows, and how many moves it has.
#[derive(Clone, Copy, Default)]
pub struct Special {
    pub cell: u16,
    pub size: u16,
}
