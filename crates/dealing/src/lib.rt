//! How a batch is dealt into queues and a rest list.

#![tactic(auto)]

mod allocating;
mod clustering;
mod counting;
mod examining;
pub mod facts;
pub mod fitting;
mod fusing;
mod lining;
mod merging;
pub mod opening;
mod prepared;
mod rooting;
mod special;
mod spotting;
mod stages;
mod touched;
