// The orders of scans: each answers which exchanges have their turn in a pass, and in which order.
#![tactic(auto)]

pub mod queue_order;
mod searching;
pub mod topological_order;
