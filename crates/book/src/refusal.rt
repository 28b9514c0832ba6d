ghost use Rattle.std.specs.Prelude.{◌≡◌};
ghost use Rattle.book.specs.Refusal.{number_of};

// Why a call is refused. A refused call has changed nothing.
#[derive(Clone, Copy, PartialEq, Eq, Debug)]
pub enum Refusal {
    // The count of exchanges is 0 or over 256.
    BadSize = 1,
    // The length list is shorter than the exchanges and the trunks laid.
    ShortList = 2,
    // The book is void.
    Void = 3,
    RunOpen = 4,
    NoSuchExchange = 5,
    // The length may not be laid.
    LengthTooGreat = 6,
    // There is no place left in the length list, or as many trunks are laid as may be.
    NoPlace = 7,
    NoSuchTrunk = 8,
    // The ticket bears another number.
    OtherTicket = 9,
    NoRunOpen = 10,
    RunOver = 11,
    RunNotOver = 12,
    NoFinishedRun = 13,
    RunIsLoop = 14,
    RunIsSettled = 15,
    Unreached = 16,
    // The caller's list is too short for the answer.
    NoRoom = 17,
}

impl Refusal {
    // By a method: `u16::from` would not say what the number is.
    pub fn number(self) -> u16
        ensures { result ≡ number_of self }
    {
        self as u16
    }
}

// A refusal, with what the call was given to keep.
pub struct Refused<T> {
    pub refusal: Refusal,
    pub back: T,
}
