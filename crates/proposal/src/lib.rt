// Pairs and claims of a proposed correspondence, read from words.
#![tactic(auto)]

pub mod claim;
pub mod cursor;
pub mod facts;
pub mod fault;
pub mod laws;
pub mod pair;
pub mod stored;
