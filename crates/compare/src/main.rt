// Many books against another method: plain rounds over all trunks.
#![tactic(auto)]

mod dice;
mod networks;
mod parts;
mod rounds;
mod trials;
mod walked;

use anyhow::anyhow;
use dice::Dice;
use lengths::charge::Charge;
use lengths::charge_delay::ChargeDelay;
use parts::Plain;
use trials::{Tally, Trial};

// How many books of each kind of length are made.
const BOOKS: u64 = 6000;

// A book for each seed from this one on, of one kind of length, run in both orders. Ends at the first difference.
fn try_kind<L: Plain>(rt: &HostRuntime, what: &str, first: u32) -> anyhow::Result<()> {
    let mut tally = Tally::default();
    for seed in first as u64..first as u64 + BOOKS {
        let mut trial = Trial::<L>::make(rt.alloc(), &mut Dice::new(seed))?;
        if let Err(difference) = trial.compare(&mut tally) {
            println!(rt; "{what}, seed {seed}: {difference:?}")?;
            return Err(anyhow!("the book and the other method differ"));
        }
    }
    println!(rt; "{what}: {BOOKS} books, {tally:?}")?;
    Ok(())
}

fn main(rt: HostRuntime) -> anyhow::Result<()> {
    try_kind::<Charge>(&rt, "charge", 0)?;
    try_kind::<ChargeDelay>(&rt, "charge with delay", 1_000_000)
}
