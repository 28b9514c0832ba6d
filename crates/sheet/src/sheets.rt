ghost use Rattle.std.specs.Prelude.{◌≡◌, ◌+◌, replicate, IfOk, string_bytes, OnOk};
ghost use Rattle.tape.specs.Reading.{kind_number};
ghost use Rattle.sheet.specs.Sheet.{SheetRight, TellsKind, head_offset, sheet_of};
ghost use Rattle.sheet.specs.Told.{TellsAll, form_of, told};

use super::telling::{print_fault_at, tell_records};
use book::making::{MOST_TRUNKS, fit};
use book::{Book, Space};
use lengths::charge::Charge;
use lengths::charge_delay::ChargeDelay;
use printing::printed::Printed;
use routing::Length;
use std::alloc::{AllocError, Global};
use tape::faults::{RecordFault, TapeFault};
use tape::heads::{Head, LengthKind, MOST_BYTES, read_head};
use tape::on_tape::TapeLength;

// A length list with places for the labels of `n` exchanges and the lengths of as many trunks as may be.
fn places<L: Length>(heap: Global, n: u16) -> Result<Vec<L>, AllocError>
    ensures { IfOk result (λ v. v.items ≡ replicate (n + 4096) L.kind.none) }
{
    let mut lengths = Vec::new(heap);
    lengths.resize(n as usize + MOST_TRUNKS, L::zero())?;
    Ok(lengths)
}

// Tells the records of a tape whose head says `n`, of this kind of length.
fn tell<L: TapeLength + Printed>(
    heap: Global,
    tape: &[u8],
    n: u16,
    out: &mut String,
) -> Result<(), AllocError>
    ensures { OnOk result (TellsAll (form_of L.kind L.WIDTH L.meant L.printed) n (told (form_of L.kind L.WIDTH L.meant L.printed) n tape.now) (string_bytes out.old) (string_bytes out.new)) }
{
    let mut lengths = places::<L>(heap, n)?;
    if let Err(refusal) = fit(n as usize, &lengths) {
        return print_fault_at(out, refusal.into(), 0);
    }
    let mut book = Book::new(Space::take(heap)?, 0, n as usize);
    tell_records(&mut book, &mut lengths, tape, n, out)
}

// Where a fault of the head is said to be.
fn offset_of(fault: RecordFault) -> usize
    ensures { result ≡ head_offset fault }
{
    match fault {
        RecordFault::Tape(TapeFault::TooLong) => MOST_BYTES,
        _ => 0,
    }
}

// Tells the records of a tape by the kind of its lengths.
fn tell_kind(heap: Global, tape: &[u8], head: Head, out: &mut String) -> Result<(), AllocError>
    ensures { OnOk result (TellsKind (kind_number head.kind) head.n tape.now (string_bytes out.old) (string_bytes out.new)) }
{
    match head.kind {
        LengthKind::Charge => tell::<Charge>(heap, tape, head.n, out),
        LengthKind::ChargeDelay => tell::<ChargeDelay>(heap, tape, head.n, out),
    }
}

// The sheet of a tape, whatever its bytes are: the blocks of its homes, and the fault that ends it, if any.
pub fn sheet_of(heap: Global, tape: &[u8]) -> Result<String, AllocError>
    ensures bytes { IfOk result (λ text. string_bytes text ≡ sheet_of tape.now) }
    ensures right { OnOk result (SheetRight tape.now) }
{
    let mut out = String::new(heap);
    match read_head(tape) {
        Err(fault) => print_fault_at(&mut out, fault, offset_of(fault))?,
        Ok(head) => tell_kind(heap, tape, head, &mut out)?,
    }
    Ok(out)
}
