ghost use Rattle.std.specs.Prelude.{◌≡◌, ◌+◌, ◌-◌, ◌<◌, ◌≤◌, true, false, length, take, drop, IfOk, if◌then◌else◌, MatchResult, nat_lt, slice_index, slice_range};
ghost use Rattle.tape.specs.declared.faults.RecordFault.TheVariants.{Content as of_content, Tape as of_tape};
ghost use Rattle.tape.specs.declared.faults.ContentFault.TheVariants.{BadState as bad_state, IllegalMap as illegal_map};
ghost use Rattle.tape.specs.declared.faults.TapeFault.TheVariants.{CutShort as cut_short};
ghost use Rattle.tape.specs.Format.{is_legal, item_in, legal_state, record_at, record_bytes, size_of};
ghost use Rattle.tape.specs.Reading.{item_of, map_of, read_as};

use super::faults::{RecordFault, TapeFault};
use super::fields::read_pair;
use super::records::{Placed, Record, Switch};
use super::shapes::{Shape, size_of};
use routing::Length;

// Reads the record at `at`: first its map, then that its bytes are there, then its state.
// A tape and a place in it, not a cursor: each fault is told with the place where its record began.
pub fn read_record<'a, L: Length>(tape: &'a [u8], at: usize) -> Result<Placed<'a>, RecordFault>
    ensures reads { read_as result ≡ record_at L.WIDTH tape.now at }
    ensures place { IfOk result (λ p. p.at ≡ at) }
    ensures within { IfOk result (λ p. (at < p.end) × (p.end ≤ length tape.now)) }
    ensures same { IfOk result (λ p. record_bytes (item_of p.record) ≡ slice_range tape.now at p.end) }
{
    let shape = shape_at(tape, at)?;
    let size = size_of::<L>(shape.map());
    let bytes = bytes_from(tape, at, size)?;
    let record = read_fields::<L>(shape, bytes)?;
    Ok(Placed {
        at,
        end: at + size,
        record,
    })
}

// The form of the record at `at`, by its map.
fn shape_at(tape: &[u8], at: usize) -> Result<Shape, RecordFault>
    ensures { MatchResult result (λ s. (at < length tape.now) × (slice_index tape.now at ≡ map_of s)) (λ f. (f ≡ (if nat_lt at (length tape.now) then of_content illegal_map else of_tape cut_short)) × (at < length tape.now → is_legal (slice_index tape.now at) ≡ false)) }
{
    let map = tape.get(at).ok_or(TapeFault::CutShort)?;
    Ok(Shape::try_from(*map)?)
}

// The tape from `at` on, if it has `count` bytes there; a record may be cut short.
fn bytes_from<'a>(tape: &'a [u8], at: usize, count: usize) -> Result<&'a [u8], TapeFault>
    requires { at ≤ length tape.now }
    ensures { MatchResult result (λ bytes. (bytes.now ≡ drop at tape.now) × (count ≤ length tape.now - at)) (λ f. (f ≡ cut_short) × (length tape.now - at < count)) }
{
    if tape.len() - at < count {
        return Err(TapeFault::CutShort);
    }
    Ok(&tape[at..])
}

// Reads the record at the front of `bytes`, which has this form and is there as a whole.
fn read_fields<'a, L: Length>(shape: Shape, bytes: &'a [u8]) -> Result<Record<'a>, RecordFault>
    requires map { slice_index bytes.now 0 ≡ map_of shape }
    requires whole { size_of L.WIDTH (map_of shape) ≤ length bytes.now }
    ensures reads { MatchResult result (λ x. (item_of x ≡ item_in L.WIDTH bytes.now) × (legal_state (item_of x) ≡ true)) (λ f. (f ≡ of_content bad_state) × (legal_state (item_in L.WIDTH bytes.now) ≡ false)) }
    ensures same { IfOk result (λ x. record_bytes (item_of x) ≡ take (size_of L.WIDTH (map_of shape)) bytes.now) }
{
    match shape {
        Shape::Lay => Ok(Record::Lay {
            from: read_pair(bytes, 1),
            to: read_pair(bytes, 3),
            length: length_at::<L>(bytes, 5),
        }),
        Shape::Reprice => Ok(Record::Reprice {
            trunk: read_pair(bytes, 1),
            length: length_at::<L>(bytes, 3),
        }),
        Shape::Bar => Ok(Record::Bar {
            trunk: read_pair(bytes, 1),
            switch: Switch::try_from(read_pair(bytes, 3))?,
        }),
        Shape::Home => Ok(Record::Home {
            home: read_pair(bytes, 1),
        }),
    }
}

// The bytes of the length at `at`.
fn length_at<'a, L: Length>(bytes: &'a [u8], at: usize) -> &'a [u8]
    requires { at + L.WIDTH ≤ length bytes.now }
    ensures { result.now ≡ take L.WIDTH (drop at bytes.now) }
{
    &bytes[at..at + L::WIDTH]
}
