ghost use Rattle.std.specs.Prelude.{◌≡◌, ℕ, List, Some, decimal, refl};
ghost use Rattle.lengths.specs.Shown.{charge_delay_shown, charge_shown};
ghost use Rattle.printing.specs.Lines.{or_dash};

use lengths::charge::Charge;
use lengths::charge_delay::ChargeDelay;
use std::fmt;
use std::fmt::Display;

// What a sheet shows: the text of each value is known.
pub trait Printed: Copy + Display {
    ghost printed: { Self → List ℕ };

    ghost shows: { (x : Self) → Self.output x ≡ Some (printed x) };
}

impl Printed for Charge {
    ghost printed = { charge_shown };

    ghost shows = { λ c. refl };
}

impl Printed for ChargeDelay {
    ghost printed = { charge_delay_shown };

    ghost shows = { λ c. refl };
}

impl Printed for u16 {
    ghost printed = { decimal };

    ghost shows = { λ n. refl };
}

// A value, or `-` where there is none.
#[derive(Clone, Copy)]
pub struct OrDash<T>(pub Option<T>);

impl<T: Printed> Display for OrDash<T> {
    ghost output = { λ x. Some (or_dash T.printed x.0) };

    fn fmt<W: fmt::Write>(&self, f: &mut fmt::Formatter<W>) -> fmt::Result {
        match self.0 {
            Some(value) => write!(f, "{value}"),
            None => write!(f, "-"),
        }
    }
}
