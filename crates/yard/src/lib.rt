//! The words that every part of the planner shares: steps, moves and batches, kinds of order, boards, refusals and causes.

#![tactic(auto)]

pub mod batch;
pub mod board;
pub mod cause;
pub mod full;
pub mod kind;
pub mod part;
pub mod refusal;
pub mod run;
