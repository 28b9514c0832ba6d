ghost use Rattle.std.specs.Prelude.{◌≡◌, length};
ghost use Rattle.book.specs.Orders.{ByOrder};
ghost use Rattle.book.specs.State.{Owed, state_of};
ghost use Rattle.whole_run.specs.Whole.{EndsRight, PassedOut, RunsOut, Whole, still_works};

use book::making::MOST_EXCHANGES;
use book::outcome::{Ending, Progress};
use book::refusal::{Refusal, Refused};
use book::{Book, Ticket};
use routing::Length;
use running::passing::ScanOrder;

// Whether a run works after a pass.
fn goes_on(passed: Result<Progress, Refusal>) -> bool
    ensures { result ≡ still_works passed }
{
    matches!(passed, Ok(Progress::Working { .. }))
}

// Passes until the run is over, as many as a book may have exchanges at most.
fn pass_until_over<L: Length, O: ScanOrder<L>>(
    book: &mut Book,
    lengths: &mut [L],
    order: &O,
    ticket: &Ticket,
)
    requires { Owed ticket.now book.old (length lengths.old) }
    ensures owed { Owed ticket.now book.new (length lengths.old) }
    ensures passes { PassedOut L.Length.kind (ByOrder L.Length.kind O.ScanOrder.answers book.old.n) (state_of book.old lengths.old) (state_of book.new lengths.new) }
{
    for _ in 0..MOST_EXCHANGES {
        if !goes_on(book.pass(lengths, order, ticket)) {
            return;
        }
    }
}

// Takes the ticket of the open run: finishes the run if it is over, else gives it up and answers none.
// A call of the book's own that gives up would have to ask that the ticket is owed, and no public call asks anything.
fn close<L: Length>(book: &mut Book, lengths: &[L], ticket: Ticket) -> Option<Ending>
    requires { Owed ticket book.old (length lengths.now) }
    ensures { RunsOut L.Length.kind (state_of book.old lengths.now) result (state_of book.new lengths.now) }
{
    match book.finish(lengths, ticket) {
        Ok(ending) => Some(ending),
        Err(Refused { refusal: _, back }) => match book.abandon(lengths, back) {
            Ok(()) => None,
            Err(_) => unreachable(),
        },
    }
}

// A whole run from `home`, in the order given, and how it ended. One that as many passes as a book may have exchanges
// did not end is given up, and none is answered: of a book that accepted calls made, no run is.
// A refused begin has changed nothing.
pub fn run_whole<L: Length, O: ScanOrder<L>>(
    book: &mut Book,
    lengths: &mut [L],
    order: &O,
    home: u16,
) -> Result<Option<Ending>, Refusal>
    ensures whole { Whole L.Length.kind (ByOrder L.Length.kind O.ScanOrder.answers book.old.n) (state_of book.old lengths.old) home result (state_of book.new lengths.new) }
    ensures ends { EndsRight L.Length.kind (state_of book.old lengths.old) result (state_of book.new lengths.new) }
{
    let ticket = book.begin(lengths, home)?;
    pass_until_over(book, lengths, order, &ticket);
    Ok(close(book, lengths, ticket))
}
