// Kinds of length with a charge, which may lie below zero.
#![tactic(auto)]

pub mod charge;
pub mod charge_delay;
pub mod limited;
pub mod limits;
