// Which paths the filed claims cover.
#![tactic(auto)]

pub mod matching;
pub mod tree;
