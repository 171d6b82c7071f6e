//! A desk: the lists that a sheet is read into.

use yard::batch::{Move, Step};

pub mod laying;
pub mod reading;

#[derive(Drop)]
pub struct Desk<V: Drop> {
    pub values: Vec<V>,
    pub moves: Vec<Move>,
    pub steps: Vec<Step>,
    pub choices: Vec<u16>,
}
