ghost use Rattle.std.specs.Prelude.{◌≡◌, ℕ, ◌<◌, ◌≤◌, true, false, List, [], if◌then◌else◌, vec_len, vec_capacity};
ghost use Rattle.routing.specs.declared.Trunk.{Trunk as TrunkOf};
ghost use Rattle.routing.specs.Lists.{has};
ghost use Rattle.routing.specs.Rules.{Run, is_loop, none_left, passed};
ghost use Rattle.routing.specs.declared.Verdict.TheVariants.{Working as working, Settled as settled};
ghost use Rattle.routing.specs.Orders.{Meaning};
ghost use Rattle.running.specs.Network.{Fits};
ghost use Rattle.running.specs.Table.{SameSize, is_due, seen_all};
ghost use Rattle.running.specs.View.{run_in};
ghost use Rattle.running.specs.Work.{run_of, Sound, Marked, SameRoom};

use super::Work;
use super::network::Network;
use super::table::Table;
use super::view::View;
use routing::{Length, Verdict};

// An order of scans: which exchanges have their turn in a pass, and in which order.
// `answers` is its rule: what it may answer, for so many exchanges, these trunks and this run.
pub trait ScanOrder<L: Length> {
    ghost answers: { ℕ → List TrunkOf → Run L → List ℕ → Type 0 };

    // Fills `list`, which comes empty and has room for every exchange.
    fn answer(&self, view: &View<'_, L>, list: &mut Vec<u16>)
        requires { (list.old.items ≡ []) × (view.now.net.n ≤ vec_capacity list.old) }
        ensures rule { answers view.now.net.n view.now.net.trunks.now (run_in view.now) list.new.items }
        ensures meaning { Meaning L.Length.kind view.now.net.n view.now.net.trunks.now (run_in view.now) list.new.items }
        ensures room { vec_capacity list.new ≡ vec_capacity list.old };
}

impl Table {
    // Each exchange of `list` is due from now on, or not.
    fn mark_all(&mut self, list: &[u16], due: bool)
        requires { (x : ℕ) → has x list.now ≡ true → x < vec_len self.old.entries }
        ensures seen { seen_all self.new ≡ seen_all self.old }
        ensures dues { (x : ℕ) → is_due self.new x ≡ (if has x list.now then due else is_due self.old x) }
        ensures size { SameSize self.old self.new }
    {
        for v in list {
            self.mark(*v, due);
        }
    }
}

impl Work {
    // The end of a pass: with no loop found, the run is settled if none waits.
    fn conclude(&mut self)
        ensures same { (self.new.table ≡ self.old.table) × (self.new.waiting ≡ self.old.waiting) }
        ensures counts { (self.new.passes ≡ self.old.passes) × (self.new.scans ≡ self.old.scans) }
        ensures verdict { self.new.verdict ≡ (if is_loop self.old.verdict then self.old.verdict else (if none_left self.old.waiting.items then settled else working)) }
    {
        if !self.found_loop() {
            self.verdict = if self.waiting.is_empty() {
                Verdict::Settled
            } else {
                Verdict::Working
            };
        }
    }

    // A pass: the order answers a list, and each exchange of it has its turn.
    pub fn pass<L: Length, O: ScanOrder<L>>(
        &mut self,
        net: Network<'_>,
        lengths: &mut [L],
        order: &O,
        list: &mut Vec<u16>,
    )
        requires room { (Fits net.n net.trunks.now lengths.old) × (net.n ≤ vec_capacity list.old) }
        requires sound { Sound net.n net.trunks.now self.old }
        requires marked { Marked net.n self.old [] }
        ensures sound { Sound net.entry.n net.entry.trunks.now self.new }
        ensures marked { is_loop self.new.verdict ≡ false → Marked net.entry.n self.new [] }
        ensures room { (vec_capacity list.new ≡ vec_capacity list.old) × (SameRoom self.old self.new) }
        ensures rule { (O.ScanOrder.answers net.entry.n net.entry.trunks.now (run_of self.old lengths.old) list.new.items) × (Meaning L.Length.kind net.entry.n net.entry.trunks.now (run_of self.old lengths.old) list.new.items) }
        ensures does { run_of self.new lengths.new ≡ passed L.Length.kind net.entry.n net.entry.trunks.now list.new.items (run_of self.old lengths.old) }
    {
        list.clear();
        let view = View {
            net,
            work: self,
            lengths,
        };
        order.answer(&view, list);
        self.table.mark_all(&self.waiting, false);
        self.table.mark_all(list, true);
        self.waiting.clear();
        self.passes = self.passes.wrapping_add(1);
        self.take_turns(net, lengths, list);
        self.conclude();
    }
}
