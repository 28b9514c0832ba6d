ghost use Rattle.std.specs.Prelude.{◌≡◌};
ghost use Rattle.tape.specs.Faults.{layer_number, layer_of, number_of as fault_number};
ghost use Rattle.tape.specs.declared.faults.RecordFault.TheVariants.{Tape as of_tape, Content as of_content, Book as of_book};

use book::refusal::Refusal;

// What can be wrong with the bytes.
#[derive(Clone, Copy, PartialEq, Eq, Debug)]
pub enum TapeFault {
    // The tape ends inside its head or inside a record.
    CutShort = 18,
    // There are too few bytes for a record that is written, or its length is not of its width.
    NoRoom = 22,
    TooLong = 23,
}

// What can be wrong with what a head or a record says.
#[derive(Clone, Copy, PartialEq, Eq, Debug)]
pub enum ContentFault {
    UnknownKind = 19,
    IllegalMap = 20,
    BadState = 21,
}

// Why a head or a record is not taken: its bytes, its own contents, or the book's refusal.
#[derive(Clone, Copy, Debug)]
pub enum RecordFault {
    Tape(TapeFault),
    Content(ContentFault),
    Book(Refusal),
}

impl From<TapeFault> for RecordFault {
    ghost from_gives = { λ found r. r ≡ of_tape found };

    fn from(found: TapeFault) -> RecordFault {
        RecordFault::Tape(found)
    }
}

impl From<ContentFault> for RecordFault {
    ghost from_gives = { λ found r. r ≡ of_content found };

    fn from(found: ContentFault) -> RecordFault {
        RecordFault::Content(found)
    }
}

impl From<Refusal> for RecordFault {
    ghost from_gives = { λ found r. r ≡ of_book found };

    fn from(found: Refusal) -> RecordFault {
        RecordFault::Book(found)
    }
}

// Which layer finds a fault.
#[derive(Clone, Copy, PartialEq, Eq, Debug)]
pub enum Layer {
    Tape = 1,
    Record = 2,
    Book = 3,
}

impl Layer {
    // By a method: `u16::from` would not say what the number is.
    pub fn number(self) -> u16
        ensures { result ≡ layer_number self }
    {
        self as u16
    }
}

impl RecordFault {
    pub fn layer(self) -> Layer
        ensures { layer_number result ≡ layer_of self }
    {
        match self {
            RecordFault::Tape(_) => Layer::Tape,
            RecordFault::Content(_) => Layer::Record,
            RecordFault::Book(_) => Layer::Book,
        }
    }

    // The tape's and the book's faults keep their own numbers.
    pub fn number(self) -> u16
        ensures { result ≡ fault_number self }
    {
        match self {
            RecordFault::Tape(fault) => fault as u16,
            RecordFault::Content(fault) => fault as u16,
            RecordFault::Book(refusal) => refusal.number(),
        }
    }
}
