ghost use Rattle.std.specs.Prelude.{◌≡◌, Some};
ghost use Rattle.lengths.specs.Charge.{charge, charge_within};
ghost use Rattle.lengths.specs.Limits.{ChargeWithin};
ghost use Rattle.lengths.specs.Shown.{charge_shown};

use crate::limited::Limited;
use crate::limits::{MOST_MILLS, rounded_up};
use routing::Length;
use std::fmt;

// A whole number of mills, which may be below zero. Sums wrap at 64 bits.
#[derive(Clone, Copy, PartialEq, Eq, PartialOrd, Ord, Debug)]
pub struct Charge {
    mills: i64,
}

impl Charge {
    // By this name, not `From`: a number is no charge until its unit is said.
    pub fn of(mills: i32) -> Charge
        ensures { charge.value result ≡ mills }
    {
        Charge {
            mills: i64::from(mills),
        }
    }

    pub fn mills(self) -> i64
        ensures { result ≡ charge.value self }
    {
        self.mills
    }
}

impl Length for Charge {
    ghost kind = { charge };

    ghost WIDTH = { 4 };

    const WIDTH: usize = 4;

    fn zero() -> Charge {
        Charge { mills: 0 }
    }

    fn add(self, other: Charge) -> Charge {
        Charge {
            mills: self.mills.wrapping_add(other.mills),
        }
    }

    fn not_above(self, other: Charge) -> bool {
        self <= other
    }

    fn extent(self) -> u64 {
        rounded_up(self.mills.unsigned_abs(), MOST_MILLS)
    }
}

impl Limited for Charge {
    ghost Within = { λ c. ChargeWithin (charge.value c) };

    ghost covered = { λ c. charge_within (charge.value c) };
}

impl fmt::Display for Charge {
    ghost output = { λ c. Some (charge_shown c) };

    fn fmt<W: fmt::Write>(&self, f: &mut fmt::Formatter<W>) -> fmt::Result {
        write!(f, "{}", self.mills)
    }
}

#[cfg(test)]
mod tests {
    use super::*;

    const MOST: i32 = MOST_MILLS as i32;

    #[test]
    fn laid_up_to_the_limit(rt: HostRuntime) {
        assert!(rt; Charge::of(MOST).may_be_laid());
        assert!(rt; Charge::of(-MOST).may_be_laid());
        assert!(rt; !Charge::of(MOST + 1).may_be_laid());
        assert!(rt; !Charge::of(-MOST - 1).may_be_laid());
    }

    #[test]
    fn sums_around_zero(rt: HostRuntime) {
        let sum = Charge::of(-5).add(Charge::of(3));
        assert_eq!(rt; sum.mills(), -2);
        assert!(rt; sum.not_above(Charge::zero()));
        assert_eq!(rt; sum.add(Charge::of(2)), Charge::zero());
    }

    #[test]
    fn extents_round_up(rt: HostRuntime) {
        assert_eq!(rt; Charge::zero().extent(), 0);
        assert_eq!(rt; Charge::of(-1).extent(), 1);
        assert_eq!(rt; Charge::of(2 * MOST).extent(), 2);
        assert_eq!(rt; Charge::of(-2 * MOST - 1).extent(), 3);
    }
}
