ghost use Rattle.std.specs.Prelude.{◌≡◌, ◌≢◌, ◌<◌, ◌≤◌, length, Ok, MatchResult, OnOk};
ghost use Rattle.tape.specs.declared.faults.ContentFault.TheVariants.{UnknownKind as unknown_kind};
ghost use Rattle.tape.specs.declared.faults.TapeFault.TheVariants.{NoRoom as no_room};
ghost use Rattle.tape.specs.Format.{head_of, most_bytes};
ghost use Rattle.tape.specs.Reading.{head_read, kind_number, start_of};
ghost use Rattle.tape.specs.Writing.{head_bytes, over_front};

use super::faults::{ContentFault, RecordFault, TapeFault};
use super::fields::{read_pair, write_pair};

// The most bytes that a tape may have.
pub const MOST_BYTES: usize = 65_536;

// The bytes of a head.
pub const HEAD_BYTES: usize = 4;

// The kinds of length that a tape may have, by their numbers.
#[derive(Clone, Copy, PartialEq, Eq, Debug)]
pub enum LengthKind {
    Charge = 1,
    ChargeDelay = 2,
}

impl TryFrom<u16> for LengthKind {
    type Error = ContentFault;

    ghost try_from_gives = { λ number r. MatchResult r (λ kind. number ≡ kind_number kind) (λ f. (f ≡ unknown_kind) × (number ≢ 1) × (number ≢ 2)) };

    fn try_from(number: u16) -> Result<LengthKind, ContentFault> {
        match number {
            1 => Ok(LengthKind::Charge),
            2 => Ok(LengthKind::ChargeDelay),
            _ => Err(ContentFault::UnknownKind),
        }
    }
}

// The kind of length, and how many exchanges.
#[derive(Clone, Copy)]
pub struct Head {
    pub kind: LengthKind,
    pub n: u16,
}

// Reads the head of a tape: first that the tape is not too long, then that the head is there, then its kind.
pub fn read_head(tape: &[u8]) -> Result<Head, RecordFault>
    ensures { head_read result ≡ head_of tape.now }
{
    if tape.len() > MOST_BYTES {
        return Err(TapeFault::TooLong.into());
    }
    if tape.len() < HEAD_BYTES {
        return Err(TapeFault::CutShort.into());
    }
    let kind = LengthKind::try_from(read_pair(tape, 0))?;
    let n = read_pair(tape, 2);
    Ok(Head { kind, n })
}

// Writes the head into the first four bytes.
pub fn write_head(head: Head, into: &mut [u8]) -> Result<(), TapeFault>
    ensures bytes { MatchResult result (λ _. (4 ≤ length into.old) × (into.new ≡ over_front (head_bytes (start_of head)) into.old)) (λ f. (f ≡ no_room) × (length into.old < 4) × (into.new ≡ into.old)) }
    ensures back { OnOk result (length into.old ≤ most_bytes → head_of into.new ≡ Ok (start_of head)) }
{
    if into.len() < HEAD_BYTES {
        return Err(TapeFault::NoRoom);
    }
    write_pair(head.kind as u16, into, 0);
    write_pair(head.n, into, 2);
    Ok(())
}
