//! The listing of a run, and the line of a refused sheet, as bytes.

#![tactic(auto)]

mod changes;
mod laying;
pub mod listing;
mod pen;
pub mod run_record;
mod sections;
pub mod slip;
pub mod worked;
