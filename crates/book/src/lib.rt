// The book of trunks: what it holds, and the calls that a client makes.
// What the steps of a run ask is kept as the book's own invariant, so no call asks anything.
#![tactic(auto)]

ghost use Rattle.std.specs.Prelude.{◌≡◌, vec_len};
ghost use Rattle.std.proofs.Props.{props};
ghost use Rattle.routing.specs.Lists.{once_prop};
ghost use Rattle.book.specs.Held.{Calm, Empty, Indexed, Laid, Names, Rests, Roomy, Seated, Spare, Tells};

pub mod checks;
pub mod making;
pub mod outcome;
pub mod reading;
pub mod refusal;
pub mod runs;
pub mod tariff;

use routing::Trunk;
use running::Work;
use running::index::Index;

// No run, one that is open, or one that is finished and can be read; a run has a home.
#[derive(Clone, Copy)]
pub enum Phase {
    Idle,
    Running(u16),
    Standing(u16),
}

// The memory of a book, taken before the book is made.
#[derive(Drop)]
pub struct Space {
    trunks: Vec<Trunk>,
    index: Index,
    work: Work,
    list: Vec<u16>,
    ghost roomy: { Roomy trunks index work },
    ghost spare: { Spare work list },
    ghost empty: { Empty trunks work },
    ghost calm: { Calm work },
}

// Trunks, and the run over them. The lengths are the caller's, who shows them at every call. The lists of a `Space` stand
// here one by one, since every call and most facts name them.
#[derive(Drop)]
pub struct Book {
    number: u16,
    n: usize,
    phase: Phase,
    trunks: Vec<Trunk>,
    index: Index,
    work: Work,
    list: Vec<u16>,
    ghost roomy: { Roomy trunks index work },
    ghost spare: { Spare work list },
    ghost laid: { Laid n trunks },
    ghost seated: { Seated phase n work },
    ghost indexed: { Indexed phase n trunks index },
    ghost rests: { Rests (vec_len trunks) work } by { Prim.hlevel (once_prop, props) },
    ghost tells: { Tells n work },
    ghost names: { Names n trunks work },
}

// Whoever begins a run owes this back: only an accepted finish or abandon takes it.
pub struct Ticket {
    number: u16,
}
