ghost use Rattle.std.specs.Prelude.{◌≡◌, true, not, [], ◌∷◌, length, IfOk};
ghost use Rattle.routing.specs.declared.Verdict.TheVariants.{Looped};
ghost use Rattle.routing.specs.Promise.{ReadsSo};
ghost use Rattle.routing.specs.Readings.{arrival, asked, charge, loop as loop_reading, route, settled_at};
ghost use Rattle.routing.specs.Rules.{is_loop};
ghost use Rattle.book.specs.Answers.{reading_of, unit_of};
ghost use Rattle.book.specs.Held.{has_run};
ghost use Rattle.book.specs.State.{state_of};
ghost use Rattle.book.specs.Written.{WritesSo};

use super::refusal::Refusal;
use super::{Book, Phase};
use routing::{Length, Verdict};
use running::way::Way;

impl Book {
    // What a reading at `x` of a settled run asks.
    fn may_read<L: Length>(&self, lengths: &[L], x: u16) -> Result<(), Refusal>
        ensures { reading_of result ≡ asked (state_of self.now lengths.now) (λ q. settled_at (state_of self.now lengths.now) x q []) }
    {
        self.unfit(lengths)?;
        let Phase::Standing(_) = self.phase else {
            return Err(Refusal::NoFinishedRun);
        };
        if self.work.found_loop() {
            return Err(Refusal::RunIsLoop);
        }
        if x as usize >= self.n {
            return Err(Refusal::NoSuchExchange);
        }
        Ok(())
    }

    // The exchange at which the loop was found and the trunk that closes it, where a loop may be read.
    fn may_read_loop<L: Length>(&self, lengths: &[L]) -> Result<(u16, u16), Refusal>
        ensures refuses { reading_of (unit_of result) ≡ asked (state_of self.now lengths.now) (λ q. (not (is_loop q.verdict), 15) ∷ []) }
        ensures names { IfOk result (λ p. self.now.work.verdict ≡ Looped p.0 p.1) }
    {
        self.unfit(lengths)?;
        let Phase::Standing(_) = self.phase else {
            return Err(Refusal::NoFinishedRun);
        };
        match self.work.verdict {
            Verdict::Working | Verdict::Settled => Err(Refusal::RunIsSettled),
            Verdict::Looped(v, t) => Ok((v, t)),
        }
    }

    // The way back in the run that the book holds.
    fn way(&self) -> Way<'_>
        requires { has_run self.now.phase ≡ true }
        ensures size { result.net.n ≡ self.now.n }
        ensures trunks { result.net.trunks.now ≡ self.now.trunks.items }
        ensures table { result.table.now ≡ self.now.work.table }
    {
        Way {
            net: self.index.network(&self.trunks, self.n),
            table: &self.work.table,
        }
    }

    // The cheapest charge from home to `x`, or none where no walk goes.
    pub fn charge<L: Length>(&self, lengths: &[L], x: u16) -> Result<Option<L>, Refusal>
        ensures { ReadsSo L.Length.kind (state_of self.now lengths.now) (charge L.Length.kind (state_of self.now lengths.now) x) (reading_of result) }
    {
        self.may_read(lengths, x)?;
        if self.work.table.entries[x as usize].reached {
            Ok(Some(lengths[x as usize]))
        } else {
            Ok(None)
        }
    }

    // The trunk by which the cheapest walk arrives at `x`; home and an unreached exchange have none.
    pub fn arrival<L: Length>(&self, lengths: &[L], x: u16) -> Result<Option<u16>, Refusal>
        ensures { ReadsSo L.Length.kind (state_of self.now lengths.now) (arrival (state_of self.now lengths.now) x) (reading_of result) }
    {
        self.may_read(lengths, x)?;
        Ok(self.work.table.entries[x as usize].arriving)
    }

    // Writes the trunks of the cheapest walk from home to `x`, and answers how many. The list is the caller's: no reading
    // takes memory.
    pub fn route<L: Length>(
        &self,
        lengths: &[L],
        x: u16,
        into: &mut [u16],
    ) -> Result<usize, Refusal>
        ensures { WritesSo L.Length.kind (state_of self.now lengths.now) (route L.Length.kind (state_of self.now lengths.now) x (length into.old)) into.old into.new result }
    {
        self.may_read(lengths, x)?;
        if !self.work.table.entries[x as usize].reached {
            return Err(Refusal::Unreached);
        }
        let way = self.way();
        let count = way.trail_length(x, None);
        if into.len() < count {
            return Err(Refusal::NoRoom);
        }
        way.write_at_front(x, into, count);
        Ok(count)
    }

    // Writes the trunks of the loop that was found, and answers how many.
    pub fn loop_trunks<L: Length>(&self, lengths: &[L], into: &mut [u16]) -> Result<usize, Refusal>
        ensures { WritesSo L.Length.kind (state_of self.now lengths.now) (loop_reading (state_of self.now lengths.now) (length into.old)) into.old into.new result }
    {
        let (v, t) = self.may_read_loop(lengths)?;
        let way = self.way();
        let count = way.trail_length(v, Some(way.net.trunks[t as usize].to));
        if into.len() <= count {
            return Err(Refusal::NoRoom);
        }
        way.write_at_front(v, into, count);
        into[count] = t;
        Ok(count + 1)
    }
}
