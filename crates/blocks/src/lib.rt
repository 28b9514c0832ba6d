// A home on a route sheet: its run in the topological order, and its lines.
#![tactic(auto)]

pub mod homes;
pub mod listing;
