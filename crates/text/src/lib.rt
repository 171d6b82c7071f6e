//! Text as sheets have it: lines of words parted by single spaces, and what can be wrong with a word or a line.

#![tactic(auto)]

pub mod faults;
mod lines;
mod numerals;
pub mod reader;
pub mod slip;
pub mod words;
