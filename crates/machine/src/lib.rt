// Machines in tables of words: when words are a table, the rows of a table read back, and in specs/ what a machine does.
#![tactic(auto)]

pub mod accepted;
pub mod head;
pub mod laws;
pub mod refusal;
pub mod row;
pub mod table;
pub mod view;
pub mod which;
pub mod words;
