ghost use Rattle.std.specs.Prelude.{◌≡◌, ◌≤◌, false, not, ◌||◌, map, length, take, drop, is_ok, IfOk, IfErr, nat_lt};
ghost use Rattle.book.specs.Orders.{ByOrder};
ghost use Rattle.book.specs.State.{runs, state_of};
ghost use Rattle.book.specs.declared.refusal.Refusal.TheVariants.{NoRoom};
ghost use Rattle.replay.specs.Making.{Bears, SameName, answer_of, call_of};
ghost use Rattle.replay.specs.Replaying.{Leaves, MakesAll, Replays, Unchanged};

use super::calling::make;
use super::reading_out::read_out;
use super::{Answer, Call, Line, Replayed};
use book::making::MOST_EXCHANGES;
use book::refusal::{Refusal, Refused};
use book::{Book, Space, Ticket};
use routing::Length;
use running::passing::ScanOrder;

// Makes each call, and answers the ticket of the run that is open then.
fn make_all<L: Length, O: ScanOrder<L>>(
    book: &mut Book,
    lengths: &mut [L],
    order: &O,
    calls: &[Call<L>],
    answers: &mut [Result<Answer, Refusal>],
) -> Option<Ticket>
    requires { (runs book.old.phase ≡ false) × (length calls.now ≤ length answers.old) }
    ensures makes { MakesAll L.Length.kind (ByOrder L.Length.kind O.ScanOrder.answers book.old.n) (state_of book.old lengths.old) (map (call_of book.old.number) calls.now) (map answer_of (take (length calls.now) answers.new)) (state_of book.new lengths.new) }
    ensures bears { (Bears result book.new (length lengths.old)) × (SameName book.old book.new) }
    ensures kept { drop (length calls.now) answers.new ≡ drop (length calls.now) answers.old }
{
    let mut held = None;
    // By index: after a zip with `answers.iter_mut()`, the proof knows nothing of the answers.
    for (i, call) in calls.iter().enumerate() {
        answers[i] = make(book, lengths, &mut held, order, *call);
    }
    held
}

// Makes a new book, makes each of these calls on it through its own methods, and reads the finished run into the
// lent lists. A refused call is answered and passed by. A list that is too short is refused before anything is done.
// The lists are lent one by one: of a struct of them, a clause for each would have to say that it is still the same.
pub fn replay<L: Length, O: ScanOrder<L>>(
    space: Space,
    number: u16,
    n: usize,
    lengths: &mut [L],
    order: &O,
    calls: &[Call<L>],
    answers: &mut [Result<Answer, Refusal>],
    lines: &mut [Line<L>],
    looped: &mut [u16],
) -> Result<Replayed, Refused<Space>>
    ensures when { is_ok result ≡ not (nat_lt (length answers.old) (length calls.now) || (nat_lt (length lines.old) n || nat_lt (length looped.old) n)) }
    ensures refused { IfErr result (λ e. (e.refusal ≡ NoRoom) × (e.back ≡ space) × Unchanged lengths.old lengths.new answers.old answers.new lines.old lines.new looped.old looped.new) }
    ensures replays { IfOk result (λ m. Replays L.Length.kind O.ScanOrder.answers number n lengths.old lengths.new calls.now (take (length calls.now) answers.new) m lines.new looped.new) }
    ensures leaves { IfOk result (λ m. (drop (length calls.now) answers.new ≡ drop (length calls.now) answers.old) × Leaves n m.read lines.old lines.new looped.old looped.new) }
{
    if answers.len() < calls.len() || lines.len() < n || looped.len() < n {
        return Err(Refused {
            refusal: Refusal::NoRoom,
            back: space,
        });
    }
    let mut book = Book::new(space, number, n);
    let ticket = make_all(&mut book, lengths, order, calls, answers);
    let read = read_out(&book, lengths, n.min(MOST_EXCHANGES), lines, looped);
    Ok(Replayed { book, ticket, read })
}
