//! What a program lends to the planner: a sheet's bytes, and lists made on the heap at their full lengths.

#![tactic(auto)]

pub mod lists;
pub mod sheet;
