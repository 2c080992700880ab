// Files of a comparison taken apart into records, and the lines that are printed.
#![tactic(auto)]

pub mod file;
pub mod line;
pub mod printing;
pub mod reading;
mod record;
