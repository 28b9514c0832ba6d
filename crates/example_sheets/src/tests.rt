use sheet::sheets::sheet_of;
use std::alloc::Global;
use std::test::Fail;
use tape::heads::{Head, LengthKind, MOST_BYTES, write_head};

// A tape of charges for `n` exchanges, with no record.
fn started(heap: Global, n: u16) -> Result<Vec<u8>, Fail> {
    let mut bytes = [0u8; 4];
    let kind = LengthKind::Charge;
    write_head(Head { kind, n }, &mut bytes)?;
    Ok(Vec::from_slice(heap, &bytes)?)
}

// Adds these bytes `count` times.
fn add(tape: &mut Vec<u8>, bytes: &[u8], count: usize) -> Result<(), Fail> {
    for _ in 0..count {
        tape.extend_from_slice(bytes)?;
    }
    Ok(())
}

// A flat-rate trunk from 0 to 0.
const LAY: [u8; 9] = [0x16, 0, 0, 0, 0, 0, 0, 0, 0];

// A run from 0.
const HOME: [u8; 3] = [0x02, 0, 0];

const BLOCK: &str = "home 0 settled passes 1 scans 0\n0 0 -\n";

#[test]
fn the_longest_tape(rt: HostRuntime) -> Result<(), Fail> {
    let mut tape = started(rt.alloc(), 1)?;
    add(&mut tape, &HOME, 21_844)?;
    assert_eq!(rt; tape.len(), MOST_BYTES);
    assert_eq!(rt; sheet_of(rt.alloc(), &tape)?.len(), 21_844 * BLOCK.len());
    tape.push(2)?;
    assert_eq!(rt;
        sheet_of(rt.alloc(), &tape)?.as_str(),
        "fault 1 23 at 65536\n"
    );
    Ok(())
}

#[test]
fn the_most_trunks(rt: HostRuntime) -> Result<(), Fail> {
    let mut tape = started(rt.alloc(), 1)?;
    add(&mut tape, &LAY, 4_096)?;
    add(&mut tape, &HOME, 1)?;
    assert_eq!(rt; sheet_of(rt.alloc(), &tape)?.as_str(), BLOCK);
    add(&mut tape, &LAY, 1)?;
    let text = sheet_of(rt.alloc(), &tape)?;
    assert!(rt; text.as_str().ends_with("0 0 -\nfault 3 7 at 36871\n"));
    Ok(())
}

#[test]
fn the_most_exchanges(rt: HostRuntime) -> Result<(), Fail> {
    let mut tape = started(rt.alloc(), 256)?;
    add(&mut tape, &HOME, 1)?;
    let text = sheet_of(rt.alloc(), &tape)?;
    assert_eq!(rt; text.as_str().lines().count(), 1 + 256 + 25);
    assert!(rt;
        text.as_str().ends_with(
            "249 - -\n\n250 - -\n251 - -\n252 - -\n253 - -\n254 - -\n255 - -\n",
        )
    );
    let none = started(rt.alloc(), 0)?;
    assert_eq!(rt; sheet_of(rt.alloc(), &none)?.as_str(), "fault 3 1 at 0\n");
    let many = started(rt.alloc(), 257)?;
    assert_eq!(rt; sheet_of(rt.alloc(), &many)?.as_str(), "fault 3 1 at 0\n");
    Ok(())
}

#[test]
fn a_tape_cut_at_every_byte(rt: HostRuntime) -> Result<(), Fail> {
    let mut tape = started(rt.alloc(), 1)?;
    add(&mut tape, &LAY, 1)?;
    for end in 0..4usize {
        let part = tape.get(0..end).unwrap_or(&[]);
        assert_eq!(rt; sheet_of(rt.alloc(), part)?.as_str(), "fault 1 18 at 0\n");
    }
    assert_eq!(rt;
        sheet_of(rt.alloc(), tape.get(0..4usize).unwrap_or(&[]))?.as_str(),
        ""
    );
    for end in 5..13usize {
        let part = tape.get(0..end).unwrap_or(&[]);
        assert_eq!(rt; sheet_of(rt.alloc(), part)?.as_str(), "fault 1 18 at 4\n");
    }
    assert_eq!(rt; sheet_of(rt.alloc(), &tape)?.as_str(), "");
    Ok(())
}
