ghost use Rattle.std.specs.Prelude.{◌≡◌, ℕ, ◌<◌, ◌≤◌, ◌++◌, length, drop, vec_len, Option, MatchOption};
ghost use Rattle.routing.specs.Lists.{has};
ghost use Rattle.routing.specs.Rules.{back};
ghost use Rattle.running.specs.Table.{seen_all};
ghost use Rattle.running.specs.Trails.{Arrives, StopsAt, trail};
ghost use Rattle.running.specs.Work.{Arrivals};

use super::network::Network;
use super::table::Table;

// The way back along arriving trunks, which are among the network's.
#[derive(Clone, Copy)]
pub struct Way<'a> {
    pub net: Network<'a>,
    pub table: &'a Table,
    ghost seated: { vec_len table.now.entries ≡ net.n },
    ghost arrivals: { Arrivals (length net.trunks.now) (seen_all table.now) },
}

impl Way<'_> {
    // The trunk that arrives at `x`, and the exchange that it leaves.
    fn step(self, x: u16) -> Option<(u16, u16)>
        requires { x < self.net.n }
        ensures { MatchOption result (StopsAt (seen_all self.entry.table.now) x) (λ p. Arrives self.entry.net.n self.entry.net.trunks.now (seen_all self.entry.table.now) x p.0 p.1) }
    {
        let t = self.table.entries[x as usize].arriving?;
        Some((t, self.net.trunks[t as usize].from))
    }

    // Whether `w` is `v` or is met on the way back from `v`.
    pub(crate) fn meets(self, v: u16, w: u16) -> bool
        requires { v < self.net.n }
        ensures { result ≡ has w (back self.entry.net.n self.entry.net.trunks.now (seen_all self.entry.table.now) v) }
    {
        let mut x = v;
        for _ in 0..self.net.n {
            if w == x {
                return true;
            }
            let Some((_, before)) = self.step(x) else {
                return false;
            };
            x = before;
        }
        w == x
    }

    // How many trunks lead back from `x`, to `stop` or to where none arrives.
    pub fn trail_length(self, x: u16, stop: Option<u16>) -> usize
        requires { x < self.net.n }
        ensures { result ≡ length (trail self.entry.net.n self.entry.net.trunks.now (seen_all self.entry.table.now) stop x) }
    {
        let mut at = x;
        for count in 0..self.net.n {
            if Some(at) == stop {
                return count;
            }
            match self.step(at) {
                None => return count,
                Some((_, before)) => at = before,
            }
        }
        self.net.n
    }

    // Fills the list with the trunks that lead back from `x`, in the order of travel, if it is just as long.
    pub fn write_trail(self, x: u16, into: &mut [u16])
        requires { x < self.net.n }
        ensures { (stop : Option ℕ) → length into.old ≡ length (trail self.entry.net.n self.entry.net.trunks.now (seen_all self.entry.table.now) stop x) → into.new ≡ trail self.entry.net.n self.entry.net.trunks.now (seen_all self.entry.table.now) stop x }
    {
        let mut at = x;
        // By number: of the items of a reversed `iter_mut` a proof knows nothing.
        for i in (0..into.len()).rev() {
            if let Some((t, before)) = self.step(at) {
                into[i] = t;
                at = before;
            }
        }
    }

    // Writes the `count` trunks that lead back from `x` to the front of the list, in the order of travel.
    pub fn write_at_front(self, x: u16, into: &mut [u16], count: usize)
        requires { (x < self.net.n) × (count ≤ length into.old) }
        ensures { (stop : Option ℕ) → count ≡ length (trail self.entry.net.n self.entry.net.trunks.now (seen_all self.entry.table.now) stop x) → into.new ≡ trail self.entry.net.n self.entry.net.trunks.now (seen_all self.entry.table.now) stop x ++ drop count into.old }
    {
        self.write_trail(x, &mut into[..count]);
    }
}
