ghost use Rattle.std.specs.Prelude.{◌<◌, ◌≤◌, pos, neg_ℤ, ◌≤ℤ◌};

use super::dice::Dice;
use super::parts::{Parts, Plain};
use std::alloc::{AllocError, Global};

// A trunk of a network that is tried.
#[derive(Clone, Copy)]
pub struct Link {
    pub from: u16,
    pub to: u16,
    pub mills: i32,
    pub delay: u16,
    pub open: bool,
}

// What kind of network is made.
#[derive(Clone, Copy)]
pub enum Shape {
    Random,
    // Each exchange leads to the one before it.
    Chain,
    // Rows of 16, each exchange with the next and the one below; where there is none, with itself.
    Grid,
    // Many trunks between few exchanges.
    Parallel,
    // Each trunk leads back to where it starts.
    Rounds,
    // Pairs, there and back, whose charges cancel.
    Pairs,
    // No trunk between the even and the odd exchanges.
    Islands,
}

impl Shape {
    pub fn pick(dice: &mut Dice) -> Shape {
        match dice.below(9) {
            0 => Shape::Chain,
            1 => Shape::Grid,
            2 => Shape::Parallel,
            3 => Shape::Rounds,
            4 => Shape::Pairs,
            5 => Shape::Islands,
            _ => Shape::Random,
        }
    }
}

// The ends of a trunk in a network of `n` exchanges.
fn ends(dice: &mut Dice, shape: Shape, n: u16) -> (u16, u16)
    requires { 0 < n }
    ensures { (result.0 < n) × (result.1 < n) }
{
    let a = dice.below(n as u64) as u16;
    let b = dice.below(n as u64) as u16;
    let near = a.saturating_sub(1);
    match shape {
        Shape::Random => (a, b),
        Shape::Chain | Shape::Pairs => (a, near),
        Shape::Grid => {
            let next = a.saturating_add(if b % 2 == 0 { 1 } else { 16 });
            (a, if next < n { next } else { a })
        }
        Shape::Parallel => (a % 4, b % 4),
        Shape::Rounds => (a, a),
        Shape::Islands => (a, if (a ^ b) & 1 == 0 { b } else { a }),
    }
}

// A height of each exchange: credits that follow it make no loop below zero.
fn height(x: u16) -> i32
    ensures { (pos 0 ≤ℤ result) × (result ≤ℤ pos 50) }
{
    (x % 51) as i32
}

// One in `odds` trunks is cheaper than its ends' heights make it, and may close a loop below zero.
fn base(dice: &mut Dice, odds: u64) -> i32
    requires { 0 < odds }
    ensures { (neg_ℤ (pos 3) ≤ℤ result) × (result ≤ℤ pos 30) }
{
    if dice.below(odds) == 0 {
        -1 - dice.below(3) as i32
    } else {
        dice.below(30) as i32
    }
}

fn make_link(dice: &mut Dice, shape: Shape, n: u16, odds: u64) -> Link
    requires { (0 < n) × (0 < odds) }
{
    let (from, to) = ends(dice, shape, n);
    let flat = dice.below(3) == 0;
    let base = if flat { 0 } else { base(dice, odds) };
    let mut mills = base.saturating_add(height(from)).saturating_sub(height(to));
    let mut delay = dice.below(40) as u16;
    // Now and then as far from zero as may be laid.
    if dice.below(50) == 0 {
        mills = if mills < 0 { -1_000_000 } else { 1_000_000 };
        delay = 1_000;
    }
    Link {
        from,
        to,
        mills,
        delay,
        open: dice.below(12) > 0,
    }
}

// `count` trunks of a network of `n` exchanges; a pair counts as one.
pub fn links(
    heap: Global,
    dice: &mut Dice,
    shape: Shape,
    n: u16,
    count: usize,
) -> Result<Vec<Link>, AllocError>
    requires { 0 < n }
{
    let mut links = Vec::with_capacity(heap, count)?;
    let odds = 1 + dice.below(200);
    for _ in 0..count {
        let link = make_link(dice, shape, n, odds);
        links.push(link)?;
        if let Shape::Pairs = shape {
            links.push(link.way_back())?;
        }
    }
    Ok(links)
}

impl Link {
    // The other trunk of a pair: the two charges cancel.
    fn way_back(self) -> Link {
        Link {
            from: self.to,
            to: self.from,
            mills: self.mills.wrapping_neg(),
            delay: 0,
            open: self.open,
        }
    }

    // Its length, as this kind of length has it.
    pub fn length<L: Plain>(self) -> L {
        L::of(self.mills, self.delay)
    }

    // What that comes to, told without it.
    pub fn parts<L: Plain>(self) -> Parts {
        L::plain(self.mills, self.delay)
    }
}
