// The order tape: records that borrow its bytes, read and written for every kind of length.
#![tactic(auto)]

pub mod faults;
pub mod fields;
pub mod heads;
pub mod on_tape;
pub mod reading;
pub mod records;
mod shapes;
#[cfg(test)]
mod tests;
pub mod writing;
