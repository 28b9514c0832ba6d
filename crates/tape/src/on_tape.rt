ghost use Rattle.std.specs.Prelude.{◌≡◌, ℕ, ◌%◌, ◌^◌, List};
ghost use Rattle.tape.specs.Fields.{number};
ghost use Rattle.tape.specs.OnTape.{charge_in, charge_delay_in, mills_in};

use super::fields::read_field;
use lengths::charge::Charge;
use lengths::charge_delay::ChargeDelay;
use routing::Length;

// The bytes of the mills; those of a delay follow.
const MILLS_BYTES: usize = 4;

// A kind of length as a tape has it.
pub trait TapeLength: Length {
    ghost meant: { List ℕ → Self };

    // The length that these bytes write.
    fn from_tape(bytes: &[u8]) -> Self
        ensures { result ≡ meant bytes.now };
}

impl TapeLength for Charge {
    ghost meant = { charge_in };

    fn from_tape(bytes: &[u8]) -> Charge {
        Charge::of(read_mills(bytes))
    }
}

impl TapeLength for ChargeDelay {
    ghost meant = { charge_delay_in };

    fn from_tape(bytes: &[u8]) -> ChargeDelay {
        let (mills, delay) = bytes.split_at(bytes.len().min(MILLS_BYTES));
        ChargeDelay::of(read_mills(mills), read_delay(delay))
    }
}

// Two's complement in four bytes.
fn read_mills(bytes: &[u8]) -> i32
    ensures { result ≡ mills_in bytes.now }
{
    let mills = (read_field(bytes) % (1 << 32)) as u32;
    mills.cast_signed()
}

fn read_delay(bytes: &[u8]) -> u16
    ensures { result ≡ number bytes.now % 2 ^ 16 }
{
    (read_field(bytes) % (1 << 16)) as u16
}
