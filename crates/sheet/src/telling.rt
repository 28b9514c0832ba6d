ghost use Rattle.std.specs.Prelude.{◌≡◌, [], length, string_bytes, OnOk};
ghost use Rattle.book.specs.State.{state_of};
ghost use Rattle.printing.specs.Lines.{Adds, fault_line};
ghost use Rattle.tape.specs.Faults.{layer_of, number_of};
ghost use Rattle.blocks.specs.Listing.{listed};
ghost use Rattle.sheet.specs.Taking.{Takes, run_read};
ghost use Rattle.sheet.specs.Told.{TellsAll, form_of, new_book, told_from};

use super::applying::apply;
use blocks::listing::{Listing, Ran};
use book::Book;
use printing::lines::print_fault;
use printing::printed::Printed;
use routing::Length;
use std::alloc::AllocError;
use tape::faults::RecordFault;
use tape::heads::HEAD_BYTES;
use tape::on_tape::TapeLength;
use tape::reading::read_record;

// Reads the record at `at` and makes its call. Answers what it did, and where it ends.
fn take_record<L: TapeLength + Printed>(
    book: &mut Book,
    lengths: &mut [L],
    tape: &[u8],
    at: usize,
) -> Result<(Option<Ran>, usize), RecordFault>
    ensures { Takes (form_of L.kind L.WIDTH L.meant L.printed) tape.now at (state_of book.old lengths.old) result (state_of book.new lengths.new) }
{
    let placed = read_record::<L>(tape, at)?;
    let ran = apply(book, lengths, placed.record)?;
    Ok((ran, placed.end))
}

// The block of a run; a change of the tariff has none.
fn print_run<L: TapeLength + Printed>(
    out: &mut String,
    listing: &Listing<'_, L>,
    ran: Option<Ran>,
) -> Result<(), AllocError>
    ensures { OnOk result (Adds (run_read L.kind L.printed (listed listing.now) listing.now.n ran) out.old out.new) }
{
    match ran {
        None => Ok(()),
        Some(ran) => listing.print_block(out, ran),
    }
}

// The line of a fault at `at`.
pub(crate) fn print_fault_at(
    out: &mut String,
    fault: RecordFault,
    at: usize,
) -> Result<(), AllocError>
    ensures { OnOk result (Adds (fault_line (layer_of fault) (number_of fault) at) out.old out.new) }
{
    print_fault(out, fault.layer().number(), fault.number(), at)
}

// Takes each record of the tape, on a new book of `n` exchanges, and prints the blocks of homes; a fault ends it.
pub(crate) fn tell_records<L: TapeLength + Printed>(
    book: &mut Book,
    lengths: &mut [L],
    tape: &[u8],
    n: u16,
    out: &mut String,
) -> Result<(), AllocError>
    requires { state_of book.old lengths.old ≡ new_book (form_of L.kind L.WIDTH L.meant L.printed) n }
    ensures { OnOk result (TellsAll (form_of L.kind L.WIDTH L.meant L.printed) n (told_from (form_of L.kind L.WIDTH L.meant L.printed) (length tape.now) tape.now 4 (state_of book.old lengths.old) []) (string_bytes out.old) (string_bytes out.new)) }
{
    let mut at = HEAD_BYTES;
    // An iterator over the records would hold this offset, and each fault would ask it back.
    while at < tape.len() {
        match take_record(book, lengths, tape, at) {
            Err(fault) => return print_fault_at(out, fault, at),
            Ok((ran, end)) => {
                print_run(out, &Listing { book, lengths, n }, ran)?;
                at = end;
            }
        }
    }
    Ok(())
}
