ghost use Rattle.std.specs.Prelude.{◌≡◌};
ghost use Rattle.book.specs.State.{state_of};
ghost use Rattle.tape.specs.Reading.{item_of};
ghost use Rattle.sheet.specs.Applying.{Applies};
ghost use Rattle.sheet.specs.Told.{form_of};

use blocks::homes::run_home;
use blocks::listing::Ran;
use book::Book;
use book::refusal::Refusal;
use printing::printed::Printed;
use routing::Length;
use tape::on_tape::TapeLength;
use tape::records::{Record, Switch};

// Makes the call of a record. An accepted home answers its run.
// `form_of` is given its four members one by one: for one that holds them all each answer would be carried over a law.
// The book's calls take the lengths apart from the book, so a struct of both would be taken apart in each arm.
pub(crate) fn apply<L: TapeLength + Printed>(
    book: &mut Book,
    lengths: &mut [L],
    item: Record<'_>,
) -> Result<Option<Ran>, Refusal>
    ensures { Applies (form_of L.kind L.WIDTH L.meant L.printed) (state_of book.old lengths.old) (item_of item.entry) result (state_of book.new lengths.new) }
{
    match item {
        Record::Lay { from, to, length } => book
            .lay(lengths, from, to, L::from_tape(length))
            .map(|_| None),
        Record::Reprice { trunk, length } => book
            .reprice(lengths, trunk, L::from_tape(length))
            .map(|()| None),
        Record::Bar { trunk, switch } => match switch {
            Switch::Bar => book.bar(lengths, trunk).map(|()| None),
            Switch::Unbar => book.unbar(lengths, trunk).map(|()| None),
        },
        Record::Home { home } => {
            run_home(book, lengths, home).map(|ending| Some(Ran { home, ending }))
        }
    }
}
