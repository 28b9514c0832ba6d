ghost use Rattle.std.specs.Prelude.{◌≡◌, ◌^◌, ◌<◌, ◌≤◌, length, IfOk, Ok};
ghost use Rattle.tape.specs.Format.{record_at, record_bytes};
ghost use Rattle.tape.specs.Reading.{item_of};
ghost use Rattle.tape.specs.Writing.{Short, bytes_after, count_of, over_front};

use super::faults::TapeFault;
use super::fields::{write_bytes, write_pair};
use super::records::Record;
use super::shapes::size_of;
use routing::Length;

// Writes a record over the front of `into`, and answers how many bytes it has. A refusal writes nothing.
pub fn write_record<L: Length>(item: Record<'_>, into: &mut [u8]) -> Result<usize, TapeFault>
    ensures count { result ≡ count_of L.WIDTH (item_of item.entry) (length into.old) }
    ensures bytes { into.new ≡ bytes_after L.WIDTH (item_of item.entry) into.old }
    ensures back { IfOk result (λ n. record_at L.WIDTH into.new 0 ≡ Ok (record { item = item_of item.entry; end = n })) }
{
    let size = size_within::<L>(item, into.len())?;
    write_fields(item, into);
    Ok(size)
}

// How many bytes the record has, if its length is of its width and `room` bytes are enough.
fn size_within<L: Length>(item: Record<'_>, room: usize) -> Result<usize, TapeFault>
    requires { room < 2 ^ 63 }
    ensures { result ≡ count_of L.WIDTH (item_of item.entry) room }
{
    let size = size_of::<L>(item.shape().map());
    if !item.is_of_width::<L>() || room < size {
        return Err(TapeFault::NoRoom);
    }
    Ok(size)
}

// Writes a record for which there is room.
fn write_fields(item: Record<'_>, into: &mut [u8])
    requires { length (record_bytes (item_of item)) ≤ length into.old }
    ensures bytes { into.new ≡ over_front (record_bytes (item_of item.entry)) into.old }
    ensures short { Short (item_of item.entry) }
{
    into[0] = item.shape().map();
    match item {
        Record::Lay { from, to, length } => {
            write_pair(from, into, 1);
            write_pair(to, into, 3);
            write_bytes(length, into, 5);
        }
        Record::Reprice { trunk, length } => {
            write_pair(trunk, into, 1);
            write_bytes(length, into, 3);
        }
        Record::Bar { trunk, switch } => {
            write_pair(trunk, into, 1);
            write_pair(switch as u16, into, 3);
        }
        Record::Home { home } => write_pair(home, into, 1),
    }
}
