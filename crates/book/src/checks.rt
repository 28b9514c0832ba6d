ghost use Rattle.std.specs.Prelude.{◌≡◌, [], IfOk};
ghost use Rattle.routing.specs.Calls.{abandon, bar, begin, between_runs, do_pass, finish, lay, refusal, reprice, said, shown};
ghost use Rattle.routing.specs.Refusals.{first_of, unfit as unfit_checks};
ghost use Rattle.book.specs.Answers.{refusal_in, shows_end};
ghost use Rattle.book.specs.State.{runs, state_of};

use super::making::{MOST_EXCHANGES, MOST_TRUNKS};
use super::outcome::Ending;
use super::refusal::Refusal;
use super::{Book, Phase, Ticket};
use routing::{Length, Verdict};

impl Phase {
    // Whether a run is open.
    fn is_running(self) -> bool
        ensures { result ≡ runs self }
    {
        matches!(self, Phase::Running(_))
    }
}

impl Book {
    // What every call asks before all else.
    pub(crate) fn unfit<L: Length>(&self, lengths: &[L]) -> Result<(), Refusal>
        ensures { refusal_in result ≡ first_of (unfit_checks (state_of self.now lengths.now) []) }
    {
        if self.n == 0 || self.n > MOST_EXCHANGES {
            return Err(Refusal::Void);
        }
        if lengths.len() < self.n + self.trunks.len() {
            return Err(Refusal::ShortList);
        }
        Ok(())
    }

    // What a change of the tariff and a begin ask.
    fn between_runs<L: Length>(&self, lengths: &[L]) -> Result<(), Refusal>
        ensures { refusal_in result ≡ first_of (between_runs (state_of self.now lengths.now) []) }
    {
        self.unfit(lengths)?;
        if self.phase.is_running() {
            return Err(Refusal::RunOpen);
        }
        Ok(())
    }

    pub(crate) fn may_lay<L: Length>(
        &self,
        lengths: &[L],
        from: u16,
        to: u16,
        length: L,
    ) -> Result<(), Refusal>
        ensures { refusal_in result ≡ refusal L.Length.kind (state_of self.now lengths.now) (lay from to length) }
    {
        self.between_runs(lengths)?;
        if from as usize >= self.n || to as usize >= self.n {
            return Err(Refusal::NoSuchExchange);
        }
        if length.extent() > 1 {
            return Err(Refusal::LengthTooGreat);
        }
        if lengths.len() <= self.n + self.trunks.len() || self.trunks.len() >= MOST_TRUNKS {
            return Err(Refusal::NoPlace);
        }
        Ok(())
    }

    pub(crate) fn may_reprice<L: Length>(
        &self,
        lengths: &[L],
        t: u16,
        length: L,
    ) -> Result<(), Refusal>
        ensures { refusal_in result ≡ refusal L.Length.kind (state_of self.now lengths.now) (reprice t length) }
    {
        self.may_bar(lengths, t)?;
        if length.extent() > 1 {
            return Err(Refusal::LengthTooGreat);
        }
        Ok(())
    }

    pub(crate) fn may_bar<L: Length>(&self, lengths: &[L], t: u16) -> Result<(), Refusal>
        ensures { refusal_in result ≡ refusal L.Length.kind (state_of self.now lengths.now) (bar t) }
    {
        self.between_runs(lengths)?;
        if t as usize >= self.trunks.len() {
            return Err(Refusal::NoSuchTrunk);
        }
        Ok(())
    }

    pub(crate) fn may_begin<L: Length>(&self, lengths: &[L], home: u16) -> Result<(), Refusal>
        ensures { refusal_in result ≡ refusal L.Length.kind (state_of self.now lengths.now) (begin home) }
    {
        self.between_runs(lengths)?;
        if home as usize >= self.n {
            return Err(Refusal::NoSuchExchange);
        }
        Ok(())
    }

    // What every call that is shown a ticket asks.
    pub(crate) fn may_abandon<L: Length>(
        &self,
        lengths: &[L],
        ticket: &Ticket,
    ) -> Result<(), Refusal>
        ensures { refusal_in result ≡ refusal L.Length.kind (state_of self.now lengths.now) (abandon ticket.now.number) }
    {
        self.unfit(lengths)?;
        if ticket.number != self.number {
            return Err(Refusal::OtherTicket);
        }
        if !self.phase.is_running() {
            return Err(Refusal::NoRunOpen);
        }
        Ok(())
    }

    pub(crate) fn may_pass<L: Length>(&self, lengths: &[L], ticket: &Ticket) -> Result<(), Refusal>
        ensures { refusal_in result ≡ refusal L.Length.kind (state_of self.now lengths.now) (do_pass ticket.now.number) }
    {
        self.may_abandon(lengths, ticket)?;
        match self.work.verdict {
            Verdict::Working => Ok(()),
            Verdict::Settled | Verdict::Looped(_, _) => Err(Refusal::RunOver),
        }
    }

    // How the run that may be finished ended. By its own match: through `progress` it would be two.
    pub(crate) fn may_finish<L: Length>(
        &self,
        lengths: &[L],
        ticket: &Ticket,
    ) -> Result<Ending, Refusal>
        ensures refuses { refusal_in result ≡ refusal L.Length.kind (state_of self.now lengths.now) (finish ticket.now.number) }
        ensures shows { IfOk result (λ e. shows_end e ≡ shown (said self.now.work.verdict) self.now.work.passes self.now.work.scans) }
    {
        self.may_abandon(lengths, ticket)?;
        let passes = self.work.passes;
        let scans = self.work.scans;
        match self.work.verdict {
            Verdict::Working => Err(Refusal::RunNotOver),
            Verdict::Settled => Ok(Ending::Settled { passes, scans }),
            Verdict::Looped(_, _) => Ok(Ending::Loop { passes, scans }),
        }
    }
}
