use super::networks::Link;
use super::parts::{Parts, Plain};
use std::alloc::{AllocError, Global};

// What plain rounds over all trunks come to: a sum for each exchange that is reached, and whether sums fall without end.
// The sums are asked for in both cases, so neither is a `Result`'s error.
#[derive(Drop)]
pub struct Rounds {
    sums: Vec<Option<Parts>>,
    pub endless: bool,
}

impl Rounds {
    // Rounds until nothing falls; as many as there are exchanges, and one more, are enough unless sums fall without end.
    pub fn over<L: Plain>(
        heap: Global,
        n: u16,
        home: u16,
        links: &[Link],
    ) -> Result<Rounds, AllocError> {
        let mut sums = vec![in heap; None; n as usize]?;
        put(&mut sums, home, Parts::ZERO);
        let endless = (0..=n).all(|_| round::<L>(&mut sums, links));
        Ok(Rounds { sums, endless })
    }

    // What has been found for exchange `x`, if anything.
    pub fn sum_at(&self, x: u16) -> Option<Parts> {
        at(&self.sums, x)
    }
}

fn at(sums: &[Option<Parts>], x: u16) -> Option<Parts> {
    sums.get(x as usize).copied().flatten()
}

fn put(sums: &mut [Option<Parts>], x: u16, sum: Parts) {
    if let Some(place) = sums.get_mut(x as usize) {
        *place = Some(sum);
    }
}

// The sum that this trunk would give its head, if it is less than what the head has.
fn less(sums: &[Option<Parts>], link: Link, length: Parts) -> Option<Parts> {
    let sum = at(sums, link.from)? + length;
    let falls = at(sums, link.to).is_none_or(|old| sum < old);
    falls.then_some(sum)
}

// One round over all trunks. Answers whether any sum fell.
fn round<L: Plain>(sums: &mut [Option<Parts>], links: &[Link]) -> bool {
    let mut fell = false;
    for link in links.iter().filter(|link| link.open) {
        if let Some(sum) = less(sums, *link, link.parts::<L>()) {
            put(sums, link.to, sum);
            fell = true;
        }
    }
    fell
}
