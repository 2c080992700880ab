// The rules of a claim, judged over forms in slots.
#![tactic(auto)]

pub mod counts;
pub mod ending;
pub mod facts;
pub mod fault;
pub mod pairs;
pub mod registers;
pub mod starting;
pub mod working;
