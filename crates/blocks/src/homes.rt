ghost use Rattle.book.specs.State.{state_of};
ghost use Rattle.blocks.specs.Homes.{HomesRight, RunsWhole};

use book::Book;
use book::outcome::Ending;
use book::refusal::Refusal;
use orders::topological_order::Topological;
use routing::Length;
use whole_run::running_out::run_whole;

// A whole run from `home` in the topological order. One that passes without end would be answered as not over:
// of a book that accepted calls made, none is.
pub fn run_home<L: Length>(book: &mut Book, lengths: &mut [L], home: u16) -> Result<Ending, Refusal>
    ensures whole { RunsWhole L.Length.kind (state_of book.old lengths.old) home result (state_of book.new lengths.new) }
    ensures homes { HomesRight L.Length.kind (state_of book.old lengths.old) home result (state_of book.new lengths.new) }
{
    run_whole(book, lengths, &Topological, home)?.ok_or(Refusal::RunNotOver)
}
