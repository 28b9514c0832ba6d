ghost use Rattle.std.specs.Prelude.{OnOk};
ghost use Rattle.printing.specs.Lines.{Adds};
ghost use Rattle.blocks.specs.Listing.{block_read, exchanges_read, listed, loop_read};

use book::Book;
use book::making::MOST_EXCHANGES;
use book::outcome::Ending;
use printing::lines::{print_blank, print_exchange, print_first, print_trunks};
use printing::printed::Printed;
use routing::Length;
use std::alloc::AllocError;

// A finished run: from which home, and how it ended.
#[derive(Clone, Copy)]
pub struct Ran {
    pub home: u16,
    pub ending: Ending,
}

// A book as it is listed: read with its lengths, over `n` exchanges.
#[derive(Clone, Copy)]
pub struct Listing<'a, L> {
    pub book: &'a Book,
    pub lengths: &'a [L],
    pub n: u16,
}

impl<L: Length + Printed> Listing<'_, L> {
    // The lines of the exchanges, with a blank line after every tenth.
    fn print_exchanges(&self, out: &mut String) -> Result<(), AllocError>
        ensures { OnOk result (Adds (exchanges_read L.kind L.printed (listed self.now) self.now.n) out.old out.new) }
    {
        for x in 0..self.n {
            let label = self.book.charge(self.lengths, x).unwrap_or(None);
            let arrival = self.book.arrival(self.lengths, x).unwrap_or(None);
            print_exchange(out, x, label, arrival)?;
            print_blank(out, x)?;
        }
        Ok(())
    }

    // The line of the loop that was found.
    fn print_loop(&self, out: &mut String) -> Result<(), AllocError>
        ensures { OnOk result (Adds (loop_read L.kind L.printed (listed self.now)) out.old out.new) }
    {
        // The book writes a loop into its caller's list; none has more trunks than a book may have exchanges.
        let mut trunks = [0u16; MOST_EXCHANGES];
        let count = self
            .book
            .loop_trunks(self.lengths, &mut trunks)
            .unwrap_or(0);
        print_trunks(out, &trunks[..count])
    }

    // The lines of a run that the book has finished.
    pub fn print_block(&self, out: &mut String, ran: Ran) -> Result<(), AllocError>
        ensures { OnOk result (Adds (block_read L.kind L.printed (listed self.now) self.now.n ran.home ran.ending) out.old out.new) }
    {
        match ran.ending {
            Ending::Settled { passes, scans } => {
                print_first(out, ran.home, "settled", passes, scans)?;
                self.print_exchanges(out)
            }
            Ending::Loop { passes, scans } => {
                print_first(out, ran.home, "loop", passes, scans)?;
                self.print_loop(out)
            }
        }
    }
}
