// Postfix expressions in words: what each word stands for, when a row of words is an expression,
// and what an expression comes to over any algebra.
#![tactic(auto)]

pub mod item;
pub mod kind;
pub mod shape;
pub mod test;
pub mod words;
