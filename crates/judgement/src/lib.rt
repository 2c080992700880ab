// A claim judged: its paths, its outputs, and the rules at its two pairs.
#![tactic(auto)]

pub mod fault;
pub mod infeasible;
pub mod judging;
pub mod outputs;
pub mod states;
pub mod tables;
pub mod turns;
pub mod walks;
