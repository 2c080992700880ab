// Paths followed by forward substitution: path condition, data transformation and outputs as normal forms.
#![tactic(auto)]

pub mod bounded;
pub mod fault;
pub mod known;
pub mod laws;
pub mod learning;
pub mod order;
pub mod outputs;
pub mod path;
mod pending;
pub mod settling;
pub mod side;
pub mod steps;
mod taking;
pub mod testing;
mod working;
