ghost use Rattle.std.specs.Prelude.{◌≡◌, length, Some, None};
ghost use Rattle.routing.specs.Calls.{abandon as abandon_call, begin as begin_call, do_pass, finish as finish_call};
ghost use Rattle.routing.specs.Orders.{Meaning};
ghost use Rattle.book.specs.Orders.{ByOrder};
ghost use Rattle.book.specs.State.{state_of};
ghost use Rattle.replay.specs.Making.{Bears, Makes, SameName, answer_of, call_of};

use super::{Answer, Call};
use book::refusal::{Refusal, Refused};
use book::{Book, Ticket};
use routing::Length;
use running::passing::ScanOrder;

// Puts a ticket where none is held.
fn hold(held: &mut Option<Ticket>, ticket: Ticket)
    requires { held.old ≡ None }
    ensures { held.new ≡ Some ticket }
{
    match held.replace(ticket) {
        None => {}
        Some(_) => unreachable(),
    }
}

// A begin is refused while a ticket is held, so no ticket is lost.
fn begin<L: Length>(
    book: &mut Book,
    lengths: &mut [L],
    held: &mut Option<Ticket>,
    home: u16,
) -> Result<Answer, Refusal>
    requires { Bears held.old book.old (length lengths.old) }
    ensures makes { Makes L.Length.kind (Meaning L.Length.kind book.old.n) (state_of book.old lengths.old) (begin_call home) (answer_of result) (state_of book.new lengths.new) }
    ensures bears { Bears held.new book.new (length lengths.old) }
{
    let ticket = book.begin(lengths, home)?;
    hold(held, ticket);
    Ok(Answer::Done)
}

fn pass<L: Length, O: ScanOrder<L>>(
    book: &mut Book,
    lengths: &mut [L],
    held: &Option<Ticket>,
    order: &O,
) -> Result<Answer, Refusal>
    requires { Bears held.now book.old (length lengths.old) }
    ensures makes { Makes L.Length.kind (ByOrder L.Length.kind O.ScanOrder.answers book.old.n) (state_of book.old lengths.old) (do_pass book.old.number) (answer_of result) (state_of book.new lengths.new) }
    ensures bears { Bears held.now book.new (length lengths.old) }
{
    let Some(ticket) = held else {
        return Ok(Answer::Skipped);
    };
    book.pass(lengths, order, ticket).map(Answer::Passed)
}

// Not one function with `abandon`, which would be given the book's call and the answer.
fn finish<L: Length>(
    book: &mut Book,
    lengths: &[L],
    held: &mut Option<Ticket>,
) -> Result<Answer, Refusal>
    requires { Bears held.old book.old (length lengths.now) }
    ensures makes { Makes L.Length.kind (Meaning L.Length.kind book.old.n) (state_of book.old lengths.now) (finish_call book.old.number) (answer_of result) (state_of book.new lengths.now) }
    ensures bears { Bears held.new book.new (length lengths.now) }
{
    let Some(ticket) = held.take() else {
        return Ok(Answer::Skipped);
    };
    match book.finish(lengths, ticket) {
        Ok(ending) => Ok(Answer::Finished(ending)),
        Err(Refused { refusal, back }) => {
            hold(held, back);
            Err(refusal)
        }
    }
}

fn abandon<L: Length>(
    book: &mut Book,
    lengths: &[L],
    held: &mut Option<Ticket>,
) -> Result<Answer, Refusal>
    requires { Bears held.old book.old (length lengths.now) }
    ensures makes { Makes L.Length.kind (Meaning L.Length.kind book.old.n) (state_of book.old lengths.now) (abandon_call book.old.number) (answer_of result) (state_of book.new lengths.now) }
    ensures bears { Bears held.new book.new (length lengths.now) }
{
    let Some(ticket) = held.take() else {
        return Ok(Answer::Skipped);
    };
    match book.abandon(lengths, ticket) {
        Ok(()) => Ok(Answer::Done),
        Err(Refused { refusal, back }) => {
            hold(held, back);
            Err(refusal)
        }
    }
}

// Makes a call, with the ticket that is held. By a `match`: the calls are an enum, and each arm is the call itself. A struct of the book, the lent list and the ticket was tried: the proof
// does not know what the list holds after a loop over it.
pub(crate) fn make<L: Length, O: ScanOrder<L>>(
    book: &mut Book,
    lengths: &mut [L],
    held: &mut Option<Ticket>,
    order: &O,
    call: Call<L>,
) -> Result<Answer, Refusal>
    requires { Bears held.old book.old (length lengths.old) }
    ensures makes { Makes L.Length.kind (ByOrder L.Length.kind O.ScanOrder.answers book.old.n) (state_of book.old lengths.old) (call_of book.old.number call) (answer_of result) (state_of book.new lengths.new) }
    ensures bears { Bears held.new book.new (length lengths.old) }
    ensures same { SameName book.old book.new }
{
    match call {
        Call::Lay { from, to, length } => book.lay(lengths, from, to, length).map(Answer::Laid),
        Call::Reprice { trunk, length } => {
            book.reprice(lengths, trunk, length).map(|()| Answer::Done)
        }
        Call::Bar { trunk } => book.bar(lengths, trunk).map(|()| Answer::Done),
        Call::Unbar { trunk } => book.unbar(lengths, trunk).map(|()| Answer::Done),
        Call::Begin { home } => begin(book, lengths, held, home),
        Call::Pass => pass(book, lengths, held, order),
        Call::Finish => finish(book, lengths, held),
        Call::Abandon => abandon(book, lengths, held),
    }
}
