ghost use Rattle.std.specs.Prelude.{length};
ghost use Rattle.book.specs.State.{Owed};
ghost use Rattle.replay.specs.Making.{Bears};

use super::PLACES;
use super::showing::{show_answers, show_done, show_read, show_refusal, show_run};
use book::refusal::Refused;
use book::{Book, Space, Ticket};
use lengths::charge::Charge;
use orders::queue_order::Queue;
use orders::topological_order::Topological;
use replay::replaying::replay;
use replay::{Answer, Call, Line, Read, Replayed};
use running::passing::ScanOrder;
use std::io;
use whole_run::running_out::run_whole;

// The example: from, to and charge of each trunk.
const TRUNKS: [(u16, u16, i32); 5] = [(0, 2, 7), (0, 1, 4), (1, 2, -2), (2, 3, 3), (3, 1, 0)];

// The book of the example, over its length list.
#[derive(Drop)]
pub struct Example {
    pub book: Book,
    pub lengths: [Charge; PLACES],
}

// Gives back the ticket of a run that is open. No call of the book's own: it asks, and no public call asks anything.
fn give_back(book: &mut Book, lengths: &[Charge], ticket: Ticket)
    requires { Owed ticket book.old (length lengths.now) }
{
    match book.abandon(lengths, ticket) {
        Ok(()) => {}
        Err(_) => unreachable(),
    }
}

impl Example {
    pub fn lay_all(&mut self, rt: &impl Print) -> io::Result<()> {
        for (from, to, mills) in TRUNKS {
            match self
                .book
                .lay(&mut self.lengths, from, to, Charge::of(mills))
            {
                Ok(t) => println!(rt; "trunk {t} from {from} to {to} at {mills}")?,
                Err(refusal) => show_refusal(rt, "lay", refusal)?,
            }
        }
        Ok(())
    }

    // A whole run from exchange 0 in this order, and what can be read of it.
    fn run<O: ScanOrder<Charge>>(
        &mut self,
        rt: &impl Print,
        what: &str,
        order: &O,
    ) -> io::Result<()> {
        let ended = run_whole(&mut self.book, &mut self.lengths, order, 0);
        show_run(rt, what, self, ended)
    }

    pub fn both_orders(&mut self, rt: &impl Print) -> io::Result<()> {
        self.run(rt, "topological order", &Topological)?;
        self.run(rt, "queue order", &Queue)
    }

    fn reprice(&mut self, rt: &impl Print, what: &str, trunk: u16, mills: i32) -> io::Result<()> {
        let repriced = self
            .book
            .reprice(&mut self.lengths, trunk, Charge::of(mills));
        show_done(rt, what, repriced)
    }

    // Trunk 1 is barred, made cheaper and opened again; then trunk 4 is given too large a credit.
    pub fn changes(&mut self, rt: &impl Print) -> io::Result<()> {
        show_done(rt, "trunk 1 barred", self.book.bar(&self.lengths, 1))?;
        self.run(rt, "without it", &Topological)?;
        self.reprice(rt, "trunk 1 at -3", 1, -3)?;
        show_done(rt, "trunk 1 opened", self.book.unbar(&self.lengths, 1))?;
        self.run(rt, "with it", &Topological)?;
        self.reprice(rt, "trunk 4 at -2", 4, -2)?;
        self.run(rt, "then", &Topological)?;
        show_done(rt, "trunk 9 barred", self.book.bar(&self.lengths, 9))
    }

    // A run is begun, another book is shown its ticket, and the run is abandoned.
    pub fn two_books(&mut self, rt: &(impl Print + AllocGlobal)) -> anyhow::Result<()> {
        let Example { book, lengths } = self;
        let mut other = Book::new(Space::take(rt.alloc())?, 2, 4);
        let ticket = match book.begin(lengths, 3) {
            Ok(ticket) => ticket,
            Err(refusal) => {
                show_refusal(rt, "begin at 3", refusal)?;
                return Ok(());
            }
        };
        let shown = other.pass(lengths, &Queue, &ticket);
        let laid = book.lay(lengths, 0, 3, Charge::of(1));
        give_back(book, lengths, ticket);
        if let Err(refusal) = shown {
            show_refusal(rt, "its ticket, shown to another book", refusal)?;
        }
        if let Err(refusal) = laid {
            show_refusal(rt, "a trunk, while the run is open", refusal)?;
        }
        println!(rt; "the run is abandoned")?;
        Ok(())
    }
}

// Nine calls, as a list. One is refused, and one is skipped, since no run is open yet.
const CALLS: usize = 9;

// Makes the calls on a new book, and shows what each was answered and what was read in the end.
pub fn from_a_list(rt: &(impl Print + AllocGlobal)) -> anyhow::Result<()> {
    let calls = [
        Call::Lay {
            from: 0,
            to: 1,
            length: Charge::of(5),
        },
        Call::Lay {
            from: 1,
            to: 2,
            length: Charge::of(-6),
        },
        Call::Lay {
            from: 2,
            to: 9,
            length: Charge::of(1),
        },
        Call::Pass,
        Call::Begin { home: 0 },
        Call::Pass,
        Call::Pass,
        Call::Pass,
        Call::Finish,
    ];
    let mut lengths = [Charge::of(0); PLACES];
    let mut answers = [Ok(Answer::Skipped); CALLS];
    let mut lines = [Line::BLANK; 3];
    let mut looped = [0u16; 3];
    let space = Space::take(rt.alloc())?;
    match replay(
        space,
        3,
        3,
        &mut lengths,
        &Queue,
        &calls,
        &mut answers,
        &mut lines,
        &mut looped,
    ) {
        Err(Refused { refusal, back: _ }) => show_refusal(rt, "the list", refusal)?,
        Ok(replayed) => {
            let (_, read) = close(replayed, &lengths);
            show_answers(rt, &answers)?;
            show_read(rt, read, &lines, &looped)?;
        }
    }
    Ok(())
}

// Gives back the ticket of a run that the calls left open, and hands the book on with what was read.
pub(crate) fn close(replayed: Replayed, lengths: &[Charge]) -> (Book, Option<Read>)
    requires { Bears replayed.ticket replayed.book (length lengths.now) }
{
    let Replayed {
        mut book,
        ticket,
        read,
    } = replayed;
    match ticket {
        None => {}
        Some(ticket) => give_back(&mut book, lengths, ticket),
    }
    (book, read)
}
