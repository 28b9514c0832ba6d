ghost use Rattle.std.proofs.Props.{props};
ghost use Rattle.routing.specs.Lists.{once_prop};
ghost use Rattle.running.specs.Network.{Fits};
ghost use Rattle.running.specs.Work.{Sound};

use super::Work;
use super::network::Network;
use routing::Length;

// A run between two steps, as an order reads it. `lengths` has the label of each exchange, then the length of each trunk.
#[derive(Drop)]
pub struct View<'a, L> {
    pub net: Network<'a>,
    pub work: &'a Work,
    pub lengths: &'a [L],
    ghost fits: { Fits net.n net.trunks.now lengths.now },
    ghost sound: { Sound net.n net.trunks.now work.now } by { Prim.hlevel (once_prop, props) },
}

impl<L: Length> View<'_, L> {
    ghost use Rattle.std.specs.Prelude.{◌≡◌, ◌<◌, length, if◌then◌else◌, Some, None};
    ghost use Rattle.routing.specs.Rules.{improving, sum_by};
    ghost use Rattle.running.specs.View.{run_in};

    // The label of `v` plus the length of trunk `t`. An exchange and a trunk, as the rules have them: a struct of the two would
    // be made for one call each.
    pub fn sum_by(&self, v: u16, t: u16) -> L
        requires { (v < self.now.net.n) × (t < length self.now.net.trunks.now) }
        ensures { result ≡ sum_by L.Length.kind self.now.net.n self.now.net.trunks.now (run_in self.now) v t }
    {
        self.lengths[v as usize].add(self.lengths[self.net.n + t as usize])
    }

    // The label that trunk `t` from `v` would give its head, if it improves.
    pub fn improved(&self, v: u16, t: u16) -> Option<L>
        requires { (v < self.now.net.n) × (t < length self.now.net.trunks.now) }
        ensures { result ≡ (if improving L.Length.kind self.now.net.n self.now.net.trunks.now (run_in self.now) v t then Some (sum_by L.Length.kind self.now.net.n self.now.net.trunks.now (run_in self.now) v t) else None) }
    {
        let w = self.net.trunks[t as usize].to as usize;
        let sum = self.sum_by(v, t);
        if !self.work.table.entries[w].reached {
            return Some(sum);
        }
        if self.lengths[w].not_above(sum) {
            return None;
        }
        Some(sum)
    }
}
