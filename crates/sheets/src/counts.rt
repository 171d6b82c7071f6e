//! What reading a sheet answers: the sizes and the numbers of what it found.

#[derive(Clone, Copy, Debug, PartialEq)]
pub struct Counts {
    pub cells: u16,
    pub share: u16,
    pub rows: u16,
    pub moves: u16,
    pub steps: u16,
    pub choices: u16,
}
