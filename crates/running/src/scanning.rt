ghost use Rattle.std.specs.Prelude.{◌≡◌, ℕ, ◌<◌, true, false, List, [], length};
ghost use Rattle.routing.specs.Lists.{Once, has};
ghost use Rattle.routing.specs.Rules.{is_loop, scanned, tried, turns};
ghost use Rattle.running.specs.Network.{Fits};
ghost use Rattle.running.specs.Work.{run_of, Sound, Marked, SameRoom};

use super::Work;
use super::network::Network;
use super::view::View;
use super::way::Way;
use routing::{Length, Verdict};

// The network and the length list are parameters: a struct that held the list and the work as `&mut` would need two
// clauses on the names of its references in each method, in place of two `requires`.
impl Work {
    // The trunk `t` from `v`: its head gets a better label, or the run is over as a loop, or nothing happens.
    fn try_trunk<L: Length>(&mut self, net: Network<'_>, lengths: &mut [L], v: u16, t: u16)
        requires sizes { (v < net.n) × (t < length net.trunks.now) }
        requires fits { Fits net.n net.trunks.now lengths.old }
        requires sound { Sound net.n net.trunks.now self.old }
        ensures sound { Sound net.entry.n net.entry.trunks.now self.new }
        ensures room { SameRoom self.old self.new }
        ensures does { (later : List ℕ) → Marked net.entry.n self.old later → Marked net.entry.n self.new later × (run_of self.new lengths.new ≡ tried L.Length.kind net.entry.n net.entry.trunks.now later v t (run_of self.old lengths.old)) }
    {
        let view = View {
            net,
            work: self,
            lengths,
        };
        let Some(sum) = view.improved(v, t) else {
            return;
        };
        let w = net.trunks[t as usize].to;
        let way = Way {
            net,
            table: &self.table,
        };
        if way.meets(v, w) {
            self.verdict = Verdict::Looped(v, t);
            return;
        }
        lengths[w as usize] = sum;
        if self.table.arrive(w, t) {
            self.waiting.push_reserved(w);
        }
    }

    // Whether the run is over as a loop.
    pub fn found_loop(&self) -> bool
        ensures { result ≡ is_loop self.now.verdict }
    {
        matches!(self.verdict, Verdict::Looped(_, _))
    }

    // The turn of `v`: each open trunk that leaves it is tried, lowest number first, until a loop is found.
    fn scan<L: Length>(&mut self, net: Network<'_>, lengths: &mut [L], v: u16)
        requires inside { v < net.n }
        requires fits { Fits net.n net.trunks.now lengths.old }
        requires sound { Sound net.n net.trunks.now self.old }
        ensures sound { Sound net.entry.n net.entry.trunks.now self.new }
        ensures room { SameRoom self.old self.new }
        ensures does { (later : List ℕ) → Marked net.entry.n self.old later → Marked net.entry.n self.new later × (run_of self.new lengths.new ≡ scanned L.Length.kind net.entry.n net.entry.trunks.now later v (run_of self.old lengths.old)) }
    {
        self.scans = self.scans.wrapping_add(1);
        for t in net.leaving(v) {
            if self.found_loop() {
                return;
            }
            self.try_trunk(net, lengths, v, *t);
        }
    }

    // Each exchange of the answered list has its turn, until a loop is found.
    pub(crate) fn take_turns<L: Length>(
        &mut self,
        net: Network<'_>,
        lengths: &mut [L],
        answered: &[u16],
    )
        requires fits { Fits net.n net.trunks.now lengths.old }
        requires sound { Sound net.n net.trunks.now self.old }
        requires marked { Marked net.n self.old answered.now }
        requires once { (Once answered.now) × (((x : ℕ) → has x answered.now ≡ true → x < net.n)) }
        ensures sound { Sound net.entry.n net.entry.trunks.now self.new }
        ensures room { SameRoom self.old self.new }
        ensures marked { is_loop self.new.verdict ≡ false → Marked net.entry.n self.new [] }
        ensures does { run_of self.new lengths.new ≡ turns L.Length.kind net.entry.n net.entry.trunks.now answered.now (run_of self.old lengths.old) }
    {
        for v in answered {
            if self.found_loop() {
                return;
            }
            self.table.mark(*v, false);
            self.scan(net, lengths, *v);
        }
    }
}
