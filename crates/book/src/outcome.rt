// How a run stands after a pass. The rules name each case with its two counts, so they stand in each.
#[derive(Clone, Copy, PartialEq, Eq, Debug)]
pub enum Progress {
    Working { passes: u64, scans: u64 },
    Settled { passes: u64, scans: u64 },
    Loop { passes: u64, scans: u64 },
}

// How a run ended. An enum of its own: a run that is finished is not working.
#[derive(Clone, Copy, PartialEq, Eq, Debug)]
pub enum Ending {
    Settled { passes: u64, scans: u64 },
    Loop { passes: u64, scans: u64 },
}
