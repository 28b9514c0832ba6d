// The lines of a route sheet, as text.
#![tactic(auto)]

pub mod lines;
pub mod printed;
