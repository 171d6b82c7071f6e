//! A sheet in, its listing out; which kind a sheet is of; and worked examples.

#![tactic(auto)]

mod calling;
pub mod kind;
pub mod plan;
mod planning;
pub mod worked;
