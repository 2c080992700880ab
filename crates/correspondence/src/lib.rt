// The comparison of two machines: what it guarantees, and worked points of its definitions.
#![tactic(auto)]

pub mod laws;
pub mod points;
