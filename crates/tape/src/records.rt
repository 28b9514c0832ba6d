ghost use Rattle.std.specs.Prelude.{◌≡◌, ◌≤◌, MatchResult};
ghost use Rattle.tape.specs.declared.faults.ContentFault.TheVariants.{BadState as bad_state};
ghost use Rattle.tape.specs.Format.{of_width};
ghost use Rattle.tape.specs.Reading.{item_of, map_of, state_of};
ghost use Rattle.tape.specs.Writing.{item_map};

use super::faults::ContentFault;
use super::shapes::Shape;
use routing::Length;

// What a bar record does to its trunk.
#[derive(Clone, Copy, PartialEq, Eq, Debug)]
pub enum Switch {
    Bar = 0,
    Unbar = 1,
}

impl TryFrom<u16> for Switch {
    type Error = ContentFault;

    ghost try_from_gives = { λ state r. MatchResult r (λ s. state ≡ state_of s) (λ f. (f ≡ bad_state) × (2 ≤ state)) };

    fn try_from(state: u16) -> Result<Switch, ContentFault> {
        match state {
            0 => Ok(Switch::Bar),
            1 => Ok(Switch::Unbar),
            _ => Err(ContentFault::BadState),
        }
    }
}

// A record. Its length is a part of the tape: as many bytes as the kind of length has there.
#[derive(Clone, Copy)]
pub enum Record<'a> {
    Lay {
        from: u16,
        to: u16,
        length: &'a [u8],
    },
    Reprice {
        trunk: u16,
        length: &'a [u8],
    },
    Bar {
        trunk: u16,
        switch: Switch,
    },
    Home {
        home: u16,
    },
}

impl Record<'_> {
    pub(crate) fn shape(self) -> Shape
        ensures { map_of result ≡ item_map (item_of self.entry) }
    {
        match self {
            Record::Lay { .. } => Shape::Lay,
            Record::Reprice { .. } => Shape::Reprice,
            Record::Bar { .. } => Shape::Bar,
            Record::Home { .. } => Shape::Home,
        }
    }

    // Whether its length, if it has one, is as wide as a length of this kind.
    pub(crate) fn is_of_width<L: Length>(self) -> bool
        ensures { result ≡ of_width L.WIDTH (item_of self.entry) }
    {
        match self {
            Record::Lay { length, .. } | Record::Reprice { length, .. } => length.len() == L::WIDTH,
            Record::Bar { .. } | Record::Home { .. } => true,
        }
    }
}

// A record with its place: the offset of its map, and where it ends.
#[derive(Clone, Copy)]
pub struct Placed<'a> {
    pub at: usize,
    pub end: usize,
    pub record: Record<'a>,
}
