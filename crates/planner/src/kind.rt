//! Which kind a sheet is of.

/// The kinds that there are.
#[derive(Clone, Copy, Debug, PartialEq)]
pub enum YardKind {
    Stands,
    Feeders,
}

pub mod choosing;
