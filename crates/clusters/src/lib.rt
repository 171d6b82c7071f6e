//! Clusters of cells by union-find, and the marks that are set on them while a move is examined.

#![tactic(auto)]

pub mod forest;
pub mod marks;
