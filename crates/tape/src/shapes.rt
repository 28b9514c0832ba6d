ghost use Rattle.std.specs.Prelude.{◌≡◌, ◌-◌, ◌^◌, min, false, MatchResult};
ghost use Rattle.tape.specs.declared.faults.ContentFault.TheVariants.{IllegalMap as illegal_map};
ghost use Rattle.tape.specs.Format.{is_legal, size_of};
ghost use Rattle.tape.specs.Reading.{map_of};

use super::faults::ContentFault;
use routing::Length;

// The bits of the two-byte fields in a map.
const FIELDS: u8 = 0x0f;

// The bit of the length.
const LENGTH: u8 = 0x10;

// The four forms of a record, by their maps.
#[derive(Clone, Copy)]
pub(crate) enum Shape {
    Lay = 0x16,
    Reprice = 0x11,
    Bar = 0x09,
    Home = 0x02,
}

impl TryFrom<u8> for Shape {
    type Error = ContentFault;

    ghost try_from_gives = { λ map r. MatchResult r (λ s. map ≡ map_of s) (λ f. (f ≡ illegal_map) × (is_legal map ≡ false)) };

    fn try_from(map: u8) -> Result<Shape, ContentFault> {
        match map {
            0x16 => Ok(Shape::Lay),
            0x11 => Ok(Shape::Reprice),
            0x09 => Ok(Shape::Bar),
            0x02 => Ok(Shape::Home),
            _ => Err(ContentFault::IllegalMap),
        }
    }
}

impl Shape {
    // By a method: `u8::from` would not say what the number is.
    pub(crate) fn map(self) -> u8
        ensures { result ≡ map_of self }
    {
        self as u8
    }
}

// How many bytes a record with this map has. A sum over the largest number stays at it, and no tape is so long.
pub(crate) fn size_of<L: Length>(map: u8) -> usize
    ensures { result ≡ min (size_of L.WIDTH map) (2 ^ 64 - 1) }
{
    let fields = (map & FIELDS).count_ones() as usize;
    let width = if map & LENGTH == LENGTH { L::WIDTH } else { 0 };
    (1 + 2 * fields).saturating_add(width)
}
