ghost use Rattle.std.specs.Prelude.{◌<◌, ◌≤◌};

use super::dice::Dice;
use super::networks::{Link, Shape, links};
use super::parts::{Parts, Plain};
use super::rounds::Rounds;
use super::walked::{Walk, apart, start_of, walked};
use book::making::{MOST_EXCHANGES, MOST_TRUNKS};
use book::outcome::Ending;
use book::refusal::Refusal;
use book::{Book, Space};
use orders::queue_order::Queue;
use orders::topological_order::Topological;
use running::passing::ScanOrder;
use std::alloc::{AllocError, Global};
use whole_run::running_out::run_whole;

// What was counted over many books.
#[derive(Clone, Copy, Default, Debug)]
pub struct Tally {
    pub runs: u64,
    pub settled: u64,
    pub loops: u64,
    pub unreached: u64,
    pub routes: u64,
}

// Where the book and the other method differ.
#[derive(Clone, Copy, Debug)]
pub enum Difference {
    // A call was refused, or a run given up.
    Refused,
    // One found a loop, and the other did not.
    Verdict,
    // The charge to this exchange.
    Charge(u16),
    // The route to this exchange is not a walk from home at that charge.
    Route(u16),
    // The loop is not a closed walk below zero that home reaches, or leaves an exchange twice.
    Loop,
}

impl From<Refusal> for Difference {
    fn from(_refusal: Refusal) -> Difference {
        Difference::Refused
    }
}

// A book that is tried, with its length list, what is known of its trunks, and what the other method says of them.
#[derive(Drop)]
pub struct Trial<L: Plain> {
    book: Book,
    lengths: Vec<L>,
    links: Vec<Link>,
    n: u16,
    home: u16,
    rounds: Rounds,
}

impl<L: Plain> Trial<L> {
    // A network that follows from the dice, beside a new book.
    pub fn make(heap: Global, dice: &mut Dice) -> Result<Trial<L>, AllocError> {
        let most = largest(dice);
        let n = 1 + dice.below(most) as u16;
        let home = dice.below(n as u64) as u16;
        let shape = Shape::pick(dice);
        let count = (n as u64 + dice.below(4 * n as u64)) as usize;
        let links = links(heap, dice, shape, n, count)?;
        let lengths = vec![in heap; L::zero(); MOST_EXCHANGES + MOST_TRUNKS]?;
        let book = Book::new(Space::take(heap)?, 1, n as usize);
        let rounds = Rounds::over::<L>(heap, n, home, &links)?;
        Ok(Trial {
            book,
            lengths,
            links,
            n,
            home,
            rounds,
        })
    }

    // Lays each link, and bars those that are not open.
    fn lay(&mut self) -> Result<(), Difference> {
        for link in &self.links {
            let length = link.length();
            let t = self
                .book
                .lay(&mut self.lengths, link.from, link.to, length)?;
            if !link.open {
                self.book.bar(&self.lengths, t)?;
            }
        }
        Ok(())
    }

    // The book laid, and run in both orders.
    pub fn compare(&mut self, tally: &mut Tally) -> Result<(), Difference> {
        self.lay()?;
        self.run(&Topological, tally)?;
        self.run(&Queue, tally)
    }

    // A run in this order, compared with the other method.
    fn run<O: ScanOrder<L>>(&mut self, order: &O, tally: &mut Tally) -> Result<(), Difference> {
        tally.runs = tally.runs.wrapping_add(1);
        let ended = run_whole(&mut self.book, &mut self.lengths, order, self.home)?;
        match (ended.ok_or(Difference::Refused)?, self.rounds.endless) {
            (Ending::Settled { .. }, false) => {
                tally.settled = tally.settled.wrapping_add(1);
                self.compare_charges(tally)
            }
            (Ending::Loop { .. }, true) => {
                tally.loops = tally.loops.wrapping_add(1);
                self.check_loop()
            }
            _ => Err(Difference::Verdict),
        }
    }

    // Every charge beside its sum, and every route added up.
    fn compare_charges(&self, tally: &mut Tally) -> Result<(), Difference> {
        for x in 0..self.n {
            let charge = self.book.charge(&self.lengths, x)?.map(L::into);
            match (charge, self.rounds.sum_at(x)) {
                (None, None) => tally.unreached = tally.unreached.wrapping_add(1),
                (Some(charge), Some(sum)) if charge == sum => {
                    self.check_route(x, sum)?;
                    tally.routes = tally.routes.wrapping_add(1);
                }
                _ => return Err(Difference::Charge(x)),
            }
        }
        Ok(())
    }

    // The route to `x` is a walk from home, of this length. The book writes it into its caller's list.
    fn check_route(&self, x: u16, length: Parts) -> Result<(), Difference> {
        let mut trunks = [0u16; MOST_EXCHANGES];
        let count = self.book.route(&self.lengths, x, &mut trunks)?;
        let route = trunks.get(..count).ok_or(Difference::Route(x))?;
        match walked::<L>(&self.links, self.home, route) {
            Some(walk) if walk == (Walk { end: x, length }) => Ok(()),
            _ => Err(Difference::Route(x)),
        }
    }

    // The loop is a closed walk below zero that home reaches, and leaves no exchange twice. The book writes it into its
    // caller's list.
    fn check_loop(&self) -> Result<(), Difference> {
        let mut trunks = [0u16; MOST_EXCHANGES];
        let count = self.book.loop_trunks(&self.lengths, &mut trunks)?;
        let round = trunks.get(..count).ok_or(Difference::Loop)?;
        let start = start_of(&self.links, round).ok_or(Difference::Loop)?;
        let walk = walked::<L>(&self.links, start, round).ok_or(Difference::Loop)?;
        let closed = walk.end == start && walk.length < Parts::ZERO;
        if !closed || self.rounds.sum_at(start).is_none() || !apart(&self.links, round) {
            return Err(Difference::Loop);
        }
        Ok(())
    }
}

// How many exchanges a network may have: most are small.
fn largest(dice: &mut Dice) -> u64
    ensures { (0 < result) × (result ≤ 256) }
{
    match dice.below(16) {
        0 => 256,
        1..=5 => 40,
        _ => 9,
    }
}
