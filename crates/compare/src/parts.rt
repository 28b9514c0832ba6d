use lengths::charge::Charge;
use lengths::charge_delay::ChargeDelay;
use routing::Length;
use std::ops::Add;

// A length as plain numbers, compared by the charge first.
#[derive(Clone, Copy, PartialEq, Eq, PartialOrd, Ord, Debug)]
pub struct Parts {
    pub mills: i64,
    pub delay: u64,
}

impl Parts {
    pub const ZERO: Parts = Parts { mills: 0, delay: 0 };
}

impl Add for Parts {
    type Output = Parts;

    fn add(self, other: Parts) -> Parts {
        Parts {
            mills: self.mills.saturating_add(other.mills),
            delay: self.delay.saturating_add(other.delay),
        }
    }
}

impl From<(i32, u16)> for Parts {
    fn from((mills, delay): (i32, u16)) -> Parts {
        Parts {
            mills: i64::from(mills),
            delay: u64::from(delay),
        }
    }
}

impl From<Charge> for Parts {
    fn from(charge: Charge) -> Parts {
        Parts {
            mills: charge.mills(),
            delay: 0,
        }
    }
}

impl From<ChargeDelay> for Parts {
    fn from(length: ChargeDelay) -> Parts {
        Parts {
            mills: length.mills(),
            delay: length.delay(),
        }
    }
}

// A kind of length that can be made of plain numbers and read as such.
pub trait Plain: Length + Into<Parts> {
    fn of(mills: i32, delay: u16) -> Self;

    // What such a length comes to, told without it.
    fn plain(mills: i32, delay: u16) -> Parts;
}

impl Plain for Charge {
    fn of(mills: i32, delay: u16) -> Charge {
        Charge::of(mills)
    }

    fn plain(mills: i32, delay: u16) -> Parts {
        Parts::from((mills, 0))
    }
}

impl Plain for ChargeDelay {
    fn of(mills: i32, delay: u16) -> ChargeDelay {
        ChargeDelay::of(mills, delay)
    }

    fn plain(mills: i32, delay: u16) -> Parts {
        Parts::from((mills, delay))
    }
}
