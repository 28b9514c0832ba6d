// Makes the sheet of each example tape, and compares it with the sheet that is stored beside it.
#![tactic(auto)]

#[cfg(test)]
mod tests;

use anyhow::anyhow;
use sheet::sheets::sheet_of;
use std::fs;

const EXAMPLES: [&str; 6] = [
    "charge",
    "charge-delay",
    "loop",
    "fault-tape",
    "fault-record",
    "fault-book",
];

// Whether the sheet of this example is the stored one.
fn as_stored(rt: &HostRuntime, name: &str) -> anyhow::Result<bool> {
    let tape = fs::read(rt, format!(in rt.alloc(); "{name}.tape")?)?;
    let stored = fs::read(rt, format!(in rt.alloc(); "{name}.sheet")?)?;
    let sheet = sheet_of(rt.alloc(), &tape).map_err(|_| anyhow!("no memory for the sheet"))?;
    Ok(sheet.as_bytes() == stored.as_slice())
}

fn run(rt: &HostRuntime) -> anyhow::Result<()> {
    for name in EXAMPLES {
        if !as_stored(rt, name)? {
            println!(rt; "{name}: another sheet than the stored one")?;
            return Err(anyhow!("an example differs"));
        }
        println!(rt; "{name}: as stored")?;
    }
    Ok(())
}

fn main(rt: HostRuntime) -> anyhow::Result<()> {
    run(&rt)
}
