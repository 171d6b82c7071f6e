//! What calls do to the lists of a run, the books of its lanes, and the law of runs with its proof; no code works a run here.

#![tactic(auto)]

pub mod law;
pub mod worked;
