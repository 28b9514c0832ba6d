ghost use Rattle.std.specs.Prelude.{◌≡◌, ◌≤◌, length};
ghost use Rattle.book.specs.State.{state_of};
ghost use Rattle.replay.specs.Reading.{Filled, ReadsOut};

use super::{Line, Read};
use book::Book;
use book::refusal::Refusal;
use routing::Length;

// Reads the charge and the arriving trunk of each exchange that has a line: two readings of the book, as the rules have them.
fn read_lines<L: Length>(book: &Book, lengths: &[L], lines: &mut [Line<L>])
    requires { length lines.old ≤ 256 }
    ensures { Filled L.Length.kind (length lines.old) (state_of book.now lengths.now) lines.old lines.new }
{
    for (x, line) in lines.iter_mut().enumerate() {
        line.charge = book.charge(lengths, x as u16).unwrap_or(line.charge);
        line.arrival = book.arrival(lengths, x as u16).unwrap_or(line.arrival);
    }
}

// Reads the finished run, if there is one: its loop, or the first `n` lines.
pub(crate) fn read_out<L: Length>(
    book: &Book,
    lengths: &[L],
    n: usize,
    lines: &mut [Line<L>],
    looped: &mut [u16],
) -> Option<Read>
    requires { (n ≤ 256) × (n ≤ length lines.old) }
    ensures { ReadsOut L.Length.kind n (state_of book.now lengths.now) result lines.old lines.new looped.old looped.new }
{
    match book.loop_trunks(lengths, looped) {
        Ok(count) => Some(Read::Loop(count)),
        // An inner match: in one pattern, what `Err(_)` leaves out is not known to the proof.
        Err(refusal) => match refusal {
            Refusal::RunIsSettled => {
                read_lines(book, lengths, &mut lines[..n]);
                Some(Read::Sheet)
            }
            _ => None,
        },
    }
}
