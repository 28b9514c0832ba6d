ghost use Rattle.std.specs.Prelude.{◌≡◌, Some};
ghost use Rattle.lengths.specs.ChargeDelay.{charge_delay, charge_delay_within};
ghost use Rattle.lengths.specs.Limits.{ChargeWithin, DelayWithin};
ghost use Rattle.lengths.specs.Shown.{charge_delay_shown};

use crate::limited::Limited;
use crate::limits::{MOST_DELAY, MOST_MILLS, rounded_up};
use routing::Length;
use std::fmt;

// A charge in mills, which may be below zero, and then a delay in milliseconds. Sums wrap at 64 bits.
#[derive(Clone, Copy, PartialEq, Eq, PartialOrd, Ord, Debug)]
pub struct ChargeDelay {
    mills: i64,
    delay: u64,
}

impl ChargeDelay {
    // By this name, not `From`: two numbers are no length until their units are said.
    pub fn of(mills: i32, delay: u16) -> ChargeDelay
        ensures { charge_delay.value result ≡ (mills, delay) }
    {
        ChargeDelay {
            mills: i64::from(mills),
            delay: u64::from(delay),
        }
    }

    pub fn mills(self) -> i64
        ensures { result ≡ (charge_delay.value self).0 }
    {
        self.mills
    }

    pub fn delay(self) -> u64
        ensures { result ≡ (charge_delay.value self).1 }
    {
        self.delay
    }
}

impl Length for ChargeDelay {
    ghost kind = { charge_delay };

    ghost WIDTH = { 6 };

    const WIDTH: usize = 6;

    fn zero() -> ChargeDelay {
        ChargeDelay { mills: 0, delay: 0 }
    }

    fn add(self, other: ChargeDelay) -> ChargeDelay {
        ChargeDelay {
            mills: self.mills.wrapping_add(other.mills),
            delay: self.delay.wrapping_add(other.delay),
        }
    }

    fn not_above(self, other: ChargeDelay) -> bool {
        self <= other
    }

    fn extent(self) -> u64 {
        let charge = rounded_up(self.mills.unsigned_abs(), MOST_MILLS);
        charge.max(rounded_up(self.delay, MOST_DELAY))
    }
}

impl Limited for ChargeDelay {
    ghost Within = { λ c. ChargeWithin (charge_delay.value c).0 × DelayWithin (charge_delay.value c).1 };

    ghost covered = { λ c. charge_delay_within (charge_delay.value c) };
}

impl fmt::Display for ChargeDelay {
    ghost output = { λ c. Some (charge_delay_shown c) };

    fn fmt<W: fmt::Write>(&self, f: &mut fmt::Formatter<W>) -> fmt::Result {
        write!(f, "{}/{}", self.mills, self.delay)
    }
}

#[cfg(test)]
mod tests {
    use super::*;

    const MOST: (i32, u16) = (MOST_MILLS as i32, MOST_DELAY as u16);

    #[test]
    fn laid_up_to_the_limits(rt: HostRuntime) {
        assert!(rt; ChargeDelay::of(MOST.0, MOST.1).may_be_laid());
        assert!(rt; !ChargeDelay::of(0, MOST.1 + 1).may_be_laid());
        assert!(rt; !ChargeDelay::of(-MOST.0 - 1, 0).may_be_laid());
    }

    #[test]
    fn the_charge_counts_first(rt: HostRuntime) {
        let cheap = ChargeDelay::of(-1, 9);
        assert!(rt; cheap.not_above(ChargeDelay::of(0, 2)));
        assert!(rt; !ChargeDelay::of(0, 2).not_above(cheap));
        assert!(rt; !cheap.not_above(ChargeDelay::of(-1, 8)));
    }

    #[test]
    fn each_part_is_added(rt: HostRuntime) {
        let sum = ChargeDelay::of(-5, 3).add(ChargeDelay::of(5, 4));
        assert_eq!(rt; sum.mills(), 0);
        assert_eq!(rt; sum.delay(), 7);
    }

    #[test]
    fn the_larger_extent_counts(rt: HostRuntime) {
        assert_eq!(rt; ChargeDelay::zero().extent(), 0);
        assert_eq!(rt; ChargeDelay::of(-MOST.0 - 1, MOST.1).extent(), 2);
        assert_eq!(rt; ChargeDelay::of(1, 2 * MOST.1 + 1).extent(), 3);
    }
}
