// Whole lists of calls, made on a new book through its own methods.
#![tactic(auto)]

pub mod calling;
pub mod reading_out;
pub mod replaying;

use book::outcome::{Ending, Progress};
use book::{Book, Ticket};

// A call on a book. Those of a run show the ticket that the last accepted begin gave.
#[derive(Clone, Copy)]
pub enum Call<L> {
    Lay { from: u16, to: u16, length: L },
    Reprice { trunk: u16, length: L },
    Bar { trunk: u16 },
    Unbar { trunk: u16 },
    Begin { home: u16 },
    Pass,
    Finish,
    Abandon,
}

// What an accepted call answered. One that shows a ticket is skipped while there is none.
#[derive(Clone, Copy, PartialEq, Eq, Debug)]
pub enum Answer {
    Skipped,
    Laid(u16),
    Done,
    Passed(Progress),
    Finished(Ending),
}

// What the sheet of a settled run says of an exchange: its charge, and the trunk by which a call arrives.
#[derive(Clone, Copy)]
pub struct Line<L> {
    pub charge: Option<L>,
    pub arrival: Option<u16>,
}

impl<L> Line<L> {
    // What a list of lines may hold before it is lent.
    pub const BLANK: Line<L> = Line {
        charge: None,
        arrival: None,
    };
}

// What was read of the finished run: a line for each exchange, or a loop of so many trunks, which stand at the front of
// the caller's list.
#[derive(Clone, Copy)]
pub enum Read {
    Sheet,
    Loop(usize),
}

// The book after the calls, with the ticket of the run that is still open. Where no run is finished, nothing is read.
pub struct Replayed {
    pub book: Book,
    pub ticket: Option<Ticket>,
    pub read: Option<Read>,
}
