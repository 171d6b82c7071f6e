//! Sheets: the kind of a yard, what its cells hold, the moves of a batch and the choices among them.

#![tactic(auto)]

pub mod counts;
pub mod faults;
mod lines;
pub mod lists;
pub mod read;
mod sections;
mod sheet;
pub mod slips;
