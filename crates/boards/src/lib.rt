//! Two boards: one over cells that the caller lends, and one that keeps its changes apart from the values under them.

#![tactic(auto)]

pub mod live;
pub mod shadow;
