// Prints the route sheet of the tape on standard input.
#![tactic(auto)]

use anyhow::anyhow;
use sheet::sheets::sheet_of;
use std::io::{Read, Write};
use tape::heads::MOST_BYTES;

fn run(rt: &HostRuntime) -> anyhow::Result<()> {
    let mut tape = Vec::new(rt.alloc());
    // One byte more than a tape may have is enough to see that it is too long.
    rt.stdin()
        .take(MOST_BYTES as u64 + 1)
        .read_to_end(&mut tape)?;
    let sheet = sheet_of(rt.alloc(), &tape).map_err(|_| anyhow!("no memory for the sheet"))?;
    rt.stdout().write_all(sheet.as_bytes())?;
    Ok(())
}

fn main(rt: HostRuntime) -> anyhow::Result<()> {
    run(&rt)
}
