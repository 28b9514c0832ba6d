// A run, step by step, as routing's rules have it.
#![tactic(auto)]

pub mod beginning;
pub mod index;
pub mod network;
pub mod passing;
pub mod scanning;
pub mod table;
pub mod view;
pub mod way;

use routing::Verdict;

// What a run knows besides the labels, which the length list holds.
#[derive(Drop)]
pub struct Work {
    pub table: table::Table,
    pub waiting: Vec<u16>,
    pub passes: u64,
    pub scans: u64,
    pub verdict: Verdict,
}
