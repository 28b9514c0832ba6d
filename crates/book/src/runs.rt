ghost use Rattle.std.specs.Prelude.{◌≡◌, ◌≤◌, true, false, length, vec_capacity, is_ok, IfOk, IfErr};
ghost use Rattle.routing.specs.Calls.{abandon, begin, do_pass, done, finish, said, shown};
ghost use Rattle.routing.specs.Does.{Serves};
ghost use Rattle.routing.specs.Orders.{Meaning};
ghost use Rattle.book.specs.Answers.{answer_back, answer_by, shows, shows_end};
ghost use Rattle.book.specs.Held.{has_run};
ghost use Rattle.book.specs.Orders.{ByOrder};
ghost use Rattle.book.specs.State.{Owed, state_of, stood};
ghost use Rattle.running.specs.Network.{Ends, Leads, Parted};

use super::outcome::{Ending, Progress};
use super::refusal::{Refusal, Refused};
use super::{Book, Phase, Ticket};
use routing::{Length, Trunk, Verdict};
use running::index::Index;
use running::passing::ScanOrder;

impl Phase {
    // An open run stands now; any other phase stays.
    fn finished(self) -> Phase
        ensures { result ≡ stood self }
    {
        match self {
            Phase::Idle => Phase::Idle,
            Phase::Running(home) => Phase::Standing(home),
            Phase::Standing(home) => Phase::Standing(home),
        }
    }
}

// The index of the open trunks. That of a run that stands is the same still: a change of a trunk would have cleared the run.
fn renew(index: &mut Index, phase: Phase, trunks: &[Trunk], n: usize)
    requires room { (n ≤ vec_capacity index.old.starts) × (length trunks.now ≤ vec_capacity index.old.listed) }
    requires ends { (length trunks.now ≤ 4096) × (Ends n trunks.now) }
    requires stands { has_run phase ≡ true → (Parted n index.old.starts.items index.old.listed.items) × (Leads n trunks.now index.old.starts.items index.old.listed.items) }
    ensures cap { (vec_capacity index.new.starts ≡ vec_capacity index.old.starts) × (vec_capacity index.new.listed ≡ vec_capacity index.old.listed) }
    ensures parted { Parted n index.new.starts.items index.new.listed.items }
    ensures leads { Leads n trunks.now index.new.starts.items index.new.listed.items }
{
    if let Phase::Idle = phase {
        index.build(trunks, n);
    }
}

impl Book {
    // Opens a run from `home`; whoever holds the ticket owes it back.
    pub fn begin<L: Length>(&mut self, lengths: &mut [L], home: u16) -> Result<Ticket, Refusal>
        ensures serves { Serves L.Length.kind (Meaning L.Length.kind self.old.n) (state_of self.old lengths.old) (begin home) (answer_by (λ _. done) result) (state_of self.new lengths.new) }
        ensures ticket { IfOk result (λ t. t.number ≡ self.old.number) }
        ensures owed { IfOk result (λ t. Owed t self.new (length lengths.old)) }
        ensures refused { is_ok result ≡ false → self.new ≡ self.old }
    {
        self.may_begin(lengths, home)?;
        renew(&mut self.index, self.phase, &self.trunks, self.n);
        self.work.begin(lengths, self.n, home);
        self.phase = Phase::Running(home);
        Ok(Ticket {
            number: self.number,
        })
    }

    // How the run stands.
    fn progress(&self) -> Progress
        ensures { shows result ≡ shown (said self.now.work.verdict) self.now.work.passes self.now.work.scans }
    {
        let passes = self.work.passes;
        let scans = self.work.scans;
        match self.work.verdict {
            Verdict::Working => Progress::Working { passes, scans },
            Verdict::Settled => Progress::Settled { passes, scans },
            Verdict::Looped(_, _) => Progress::Loop { passes, scans },
        }
    }

    // One pass, in the order given.
    pub fn pass<L: Length, O: ScanOrder<L>>(
        &mut self,
        lengths: &mut [L],
        order: &O,
        ticket: &Ticket,
    ) -> Result<Progress, Refusal>
        ensures serves { Serves L.Length.kind (ByOrder L.Length.kind O.ScanOrder.answers self.old.n) (state_of self.old lengths.old) (do_pass ticket.now.number) (answer_by shows result) (state_of self.new lengths.new) }
        ensures owed { (t : Ticket) → Owed t self.old (length lengths.old) → Owed t self.new (length lengths.old) }
        ensures refused { is_ok result ≡ false → self.new ≡ self.old }
    {
        self.may_pass(lengths, ticket)?;
        let net = self.index.network(&self.trunks, self.n);
        self.work.pass(net, lengths, order, &mut self.list);
        Ok(self.progress())
    }

    // Takes the ticket of a run that is over; the run can be read until the tariff changes or another begins.
    // Not one function with `abandon`, which would be given the check, the phase and the answer.
    pub fn finish<L: Length>(
        &mut self,
        lengths: &[L],
        ticket: Ticket,
    ) -> Result<Ending, Refused<Ticket>>
        ensures serves { Serves L.Length.kind (Meaning L.Length.kind self.old.n) (state_of self.old lengths.now) (finish ticket.number) (answer_back shows_end result) (state_of self.new lengths.now) }
        ensures ticket { IfErr result (λ e. e.back ≡ ticket) }
        ensures refused { is_ok result ≡ false → self.new ≡ self.old }
    {
        match self.may_finish(lengths, &ticket) {
            Err(refusal) => Err(Refused {
                refusal,
                back: ticket,
            }),
            Ok(ending) => {
                let Ticket { number: _ } = ticket;
                self.phase = self.phase.finished();
                Ok(ending)
            }
        }
    }

    // Takes the ticket, and leaves the book with no run.
    pub fn abandon<L: Length>(
        &mut self,
        lengths: &[L],
        ticket: Ticket,
    ) -> Result<(), Refused<Ticket>>
        ensures serves { Serves L.Length.kind (Meaning L.Length.kind self.old.n) (state_of self.old lengths.now) (abandon ticket.number) (answer_back (λ _. done) result) (state_of self.new lengths.now) }
        ensures ticket { IfErr result (λ e. e.back ≡ ticket) }
        ensures takes { Owed ticket self.old (length lengths.now) → is_ok result ≡ true }
        ensures refused { is_ok result ≡ false → self.new ≡ self.old }
    {
        match self.may_abandon(lengths, &ticket) {
            Err(refusal) => Err(Refused {
                refusal,
                back: ticket,
            }),
            Ok(()) => {
                let Ticket { number: _ } = ticket;
                self.phase = Phase::Idle;
                Ok(())
            }
        }
    }
}
