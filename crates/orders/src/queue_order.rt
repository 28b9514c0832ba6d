ghost use Rattle.std.specs.Prelude.{◌≡◌};
ghost use Rattle.routing.specs.Orders.{queue};

use routing::Length;
use running::passing::ScanOrder;
use running::view::View;

// Each exchange that waits has its turn, first come, first served.
#[derive(Clone, Copy)]
pub struct Queue;

impl<L: Length> ScanOrder<L> for Queue {
    ghost answers = { λ n ts r a. a ≡ queue L.Length.kind n ts r };

    fn answer(&self, view: &View<'_, L>, list: &mut Vec<u16>) {
        // Not by `extend_from_slice`, which can want memory: there is room.
        for v in view.work.waiting.iter() {
            list.push_reserved(*v);
        }
    }
}
