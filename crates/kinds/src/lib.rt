//! The kinds of order: trams on stands, and loads on feeder sections.

#![tactic(auto)]

pub mod feeders;
pub mod stands;
