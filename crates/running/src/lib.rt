//! The calls of a run: steps, looks, tallies and lane questions, and any list of calls with the law that holds of it.

#![tactic(auto)]

mod admitting;
pub mod asking;
pub mod lane;
pub mod performing;
pub mod run;
pub mod script;
pub mod stepping;
pub mod tallying;
mod working;
