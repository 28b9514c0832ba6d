// A whole run of a book: begin, passes until the run is over, finish.
#![tactic(auto)]

pub mod running_out;
