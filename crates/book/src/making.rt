ghost use Rattle.std.specs.Prelude.{◌≡◌, ℕ, ◌||◌, [], ◌∷◌, length, ◌==◌, nat_lt};
ghost use Rattle.routing.specs.Refusals.{first_of};
ghost use Rattle.book.specs.declared.Phase.TheVariants.{Idle};
ghost use Rattle.book.specs.Answers.{refusal_in, fitness};

use super::refusal::Refusal;
use super::{Book, Phase, Space};
use routing::{Length, Verdict};
use running::Work;
use running::index::Index;
use running::table::Table;
use std::alloc::{AllocError, Global};

// The most exchanges and trunks that a book may have.
pub const MOST_EXCHANGES: usize = 256;

pub const MOST_TRUNKS: usize = 4096;

// Whether `n` exchanges and this length list can make a book.
pub fn fit<L: Length>(n: usize, lengths: &[L]) -> Result<(), Refusal>
    ensures number { refusal_in result ≡ first_of ((n == 0 || nat_lt 256 n, 1) ∷ ((nat_lt (length lengths.now) n, 2) ∷ [])) }
    ensures fitness { result ≡ fitness (n == 0 || nat_lt 256 n) (nat_lt (length lengths.now) n) }
{
    if n == 0 || n > MOST_EXCHANGES {
        return Err(Refusal::BadSize);
    }
    if lengths.len() < n {
        return Err(Refusal::ShortList);
    }
    Ok(())
}

impl Space {
    // Memory for the largest book; the only call that can want for it.
    pub fn take(heap: Global) -> Result<Space, AllocError> {
        let trunks = Vec::with_capacity(heap, MOST_TRUNKS)?;
        let starts = Vec::with_capacity(heap, MOST_EXCHANGES)?;
        let listed = Vec::with_capacity(heap, MOST_TRUNKS)?;
        let entries = Vec::with_capacity(heap, MOST_EXCHANGES)?;
        let waiting = Vec::with_capacity(heap, MOST_EXCHANGES)?;
        let list = Vec::with_capacity(heap, MOST_EXCHANGES)?;
        Ok(Space {
            trunks,
            index: Index { starts, listed },
            work: Work {
                table: Table { entries },
                waiting,
                passes: 0,
                scans: 0,
                verdict: Verdict::Settled,
            },
            list,
        })
    }
}

impl Book {
    // A book with no trunk and no run. One of 0 or over 256 exchanges is void: every call refuses.
    pub fn new(space: Space, number: u16, n: usize) -> Book
        ensures number { (result.number ≡ number) × (result.n ≡ n) }
        ensures empty { (result.trunks.items ≡ []) × (result.phase ≡ Idle) }
    {
        let Space {
            trunks,
            index,
            work,
            list,
        } = space;
        Book {
            number,
            n,
            phase: Phase::Idle,
            trunks,
            index,
            work,
            list,
        }
    }
}
