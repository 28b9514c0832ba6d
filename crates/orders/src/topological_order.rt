ghost use Rattle.std.specs.Prelude.{◌≡◌};
ghost use Rattle.routing.specs.Orders.{topological};

use super::searching::{has_improving, visit};
use routing::Length;
use running::passing::ScanOrder;
use running::view::View;

// Searches from the exchanges that wait and from which a trunk improves, the last first. Each exchange that is met
// has its turn, and before those found from it.
#[derive(Clone, Copy)]
pub struct Topological;

impl<L: Length> ScanOrder<L> for Topological {
    ghost answers = { λ n ts r a. a ≡ topological L.Length.kind n ts r };

    fn answer(&self, view: &View<'_, L>, list: &mut Vec<u16>) {
        // No network has more than 256 exchanges, and no pass takes memory from the heap.
        let mut seen = [false; 256];
        let marks = &mut seen[0..view.net.n];
        for v in view.work.waiting.iter().rev() {
            if !marks[*v as usize] && has_improving(view, *v) {
                visit(view, *v, marks, list);
            }
        }
        list.reverse();
    }
}
