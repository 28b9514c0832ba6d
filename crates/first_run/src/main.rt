// A tariff from beginning to end: laid, run in both orders, changed and run again, and once more as a list of calls.
#![tactic(auto)]

mod showing;
mod stories;
#[cfg(test)]
mod tests;

use book::{Book, Space};
use lengths::charge::Charge;
use stories::{Example, from_a_list};

// Places in the length list of the example: four labels, and room for more trunks than it has.
const PLACES: usize = 16;

fn main(rt: HostRuntime) -> anyhow::Result<()> {
    let mut example = Example {
        book: Book::new(Space::take(rt.alloc())?, 1, 4),
        lengths: [Charge::of(0); PLACES],
    };
    example.lay_all(&rt)?;
    example.both_orders(&rt)?;
    example.changes(&rt)?;
    example.two_books(&rt)?;
    from_a_list(&rt)
}
