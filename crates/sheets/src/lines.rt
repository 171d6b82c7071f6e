//! The lines of a sheet: what each holds.

pub(crate) mod reading;

/// What the first line tells.
#[derive(Clone, Copy)]
pub(crate) struct Size {
    pub cells: u16,
    pub share: u16,
}

/// What the two lines before the rows tell: the size of the yard, and how many rows come.
#[derive(Clone, Copy)]
pub(crate) struct Head {
    pub size: Size,
    pub rows: u16,
}

/// What an occupancy row tells.
#[derive(Clone, Copy)]
pub(crate) struct Row<V> {
    pub cell: u16,
    pub value: V,
}
