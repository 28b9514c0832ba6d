ghost use Rattle.std.specs.Prelude.{◌≡◌, ◌+◌, ◌<◌, ◌≤◌, false, length, vec_len, vec_capacity, slice_index_or};
ghost use Rattle.routing.specs.Rules.{improving};
ghost use Rattle.routing.specs.Orders.{follows, has_improving};
ghost use Rattle.running.specs.View.{run_in};
ghost use Rattle.orders.specs.Marks.{unmarked, Visits};

use routing::Length;
use running::view::View;

// Whether trunk `t` from `v` improves: its head is not reached, or has a label above the sum.
fn improves<L: Length>(view: &View<'_, L>, v: u16, t: u16) -> bool
    requires { (v < view.now.net.n) × (t < length view.now.net.trunks.now) }
    ensures { result ≡ improving L.Length.kind view.now.net.n view.now.net.trunks.now (run_in view.now) v t }
{
    view.improved(v, t).is_some()
}

// Whether a search goes on from `v` by trunk `t`: its head is reached, and the sum is not above the label there.
fn follows<L: Length>(view: &View<'_, L>, v: u16, t: u16) -> bool
    requires { (v < view.now.net.n) × (t < length view.now.net.trunks.now) }
    ensures { result ≡ follows L.Length.kind view.now.net.n view.now.net.trunks.now (run_in view.now) v t }
{
    let w = view.net.trunks[t as usize].to as usize;
    let sum = view.sum_by(v, t);
    view.work.table.entries[w].reached && sum.not_above(view.lengths[w])
}

// Whether some open trunk from `v` improves.
pub(crate) fn has_improving<L: Length>(view: &View<'_, L>, v: u16) -> bool
    requires { v < view.now.net.n }
    ensures { result ≡ has_improving L.Length.kind view.now.net.n view.now.net.trunks.now (run_in view.now) v }
{
    for t in view.net.leaving(v) {
        if improves(view, v, *t) {
            return true;
        }
    }
    false
}

// Visits `v`, which is marked first, and then, depth first, what its open trunks lead to, lowest number first.
// An exchange joins the list when its visit ends, so after all that are found from it.
pub(crate) fn visit<L: Length>(view: &View<'_, L>, v: u16, marks: &mut [bool], list: &mut Vec<u16>)
    requires sizes { (v < view.now.net.n) × (length marks.old ≡ view.now.net.n) }
    requires fresh { slice_index_or marks.old v false ≡ false }
    requires room { vec_len list.old + unmarked marks.old ≤ vec_capacity list.old }
    ensures counts { (unmarked marks.new < unmarked marks.old) × (vec_len list.new + unmarked marks.new ≡ vec_len list.old + unmarked marks.old) }
    ensures cap { vec_capacity list.new ≡ vec_capacity list.old }
    ensures does { Visits L.Length.kind view.now.net.n view.now.net.trunks.now (run_in view.now) v marks.old list.old.items marks.new list.new.items }
{
    marks[v as usize] = true;
    for t in view.net.leaving(v) {
        let w = view.net.trunks[*t as usize].to;
        if !marks[w as usize] && follows(view, v, *t) {
            visit(view, w, marks, list);
        }
    }
    list.push_reserved(v);
}
