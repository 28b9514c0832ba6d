// The route sheet of a tape.
#![tactic(auto)]

mod applying;
pub mod sheets;
mod telling;
