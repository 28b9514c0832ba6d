use super::faults::RecordFault;
use super::heads::{LengthKind, read_head, write_head};
use super::on_tape::TapeLength;
use super::reading::read_record;
use super::records::Record;
use super::writing::write_record;
use lengths::charge::Charge;
use std::process::Abort;
use std::test::Fail;

// From 258 to 2, with a charge of -1.
const LAY: [u8; 9] = [0x16, 1, 2, 0, 2, 255, 255, 255, 255];

// Reads the record at the front and writes it again.
fn copied(tape: &[u8], into: &mut [u8]) -> Result<usize, RecordFault> {
    let placed = read_record::<Charge>(tape, 0)?;
    Ok(write_record::<Charge>(placed.record, into)?)
}

// The number of the fault that `copied` is answered with.
fn fault(tape: &[u8], into: &mut [u8]) -> Option<u16> {
    copied(tape, into).err().map(|fault| fault.number())
}

// The tape, cut at each of its bytes.
fn cut_short(rt: &impl Abort, tape: &[u8], into: &mut [u8]) {
    for n in 0..tape.len() {
        assert_eq!(rt; fault(&tape[..n], into), Some(18));
    }
}

#[test]
fn records_are_read_and_written(rt: HostRuntime) -> Result<(), Fail> {
    let mut copy = [0; 9];
    assert_eq!(rt; copied(&[0x02, 1, 0], &mut copy)?, 3);
    assert_eq!(rt; copy, [0x02, 1, 0, 0, 0, 0, 0, 0, 0]);
    assert_eq!(rt; copied(&[0x09, 0, 3, 0, 1], &mut copy)?, 5);
    assert_eq!(rt; copy, [0x09, 0, 3, 0, 1, 0, 0, 0, 0]);
    assert_eq!(rt; copied(&[0x11, 0, 3, 9, 8, 7, 6], &mut copy)?, 7);
    assert_eq!(rt; copy, [0x11, 0, 3, 9, 8, 7, 6, 0, 0]);
    assert_eq!(rt; copied(&LAY, &mut copy)?, 9);
    assert_eq!(rt; copy, LAY);
    Ok(())
}

#[test]
fn a_lay_has_its_fields(rt: HostRuntime) -> Result<(), Fail> {
    match read_record::<Charge>(&LAY, 0)?.record {
        Record::Lay { from, to, length } => {
            assert_eq!(rt; from, 258);
            assert_eq!(rt; to, 2);
            assert_eq!(rt; Charge::from_tape(length).mills(), -1);
            Ok(())
        }
        _ => Err(Fail::new("not a lay")),
    }
}

#[test]
fn faults_have_their_numbers(rt: HostRuntime) {
    let mut copy = [7; 8];
    cut_short(&rt, &LAY, &mut copy);
    assert_eq!(rt; fault(&[0x17], &mut copy), Some(20));
    assert_eq!(rt; fault(&[0x09, 0, 0, 0, 2], &mut copy), Some(21));
    assert_eq!(rt; fault(&LAY, &mut copy), Some(22));
    assert_eq!(rt; copy, [7; 8]);
}

#[test]
fn charges_have_a_sign(rt: HostRuntime) {
    assert_eq!(rt; Charge::from_tape(&[255, 255, 255, 255]).mills(), -1);
    assert_eq!(rt;
        Charge::from_tape(&[127, 255, 255, 255]).mills(),
        2_147_483_647
    );
}

#[test]
fn a_head_is_read_back(rt: HostRuntime) -> Result<(), Fail> {
    let mut tape = [0; 5];
    let head = read_head(&[0, 2, 1, 0])?;
    assert_eq!(rt; head.kind, LengthKind::ChargeDelay);
    assert_eq!(rt; head.n, 256);
    assert!(rt; write_head(head, &mut tape).is_ok());
    assert_eq!(rt; tape, [0, 2, 1, 0, 0]);
    Ok(())
}
