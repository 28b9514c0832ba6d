ghost use Rattle.std.specs.Prelude.{◌≡◌, false, if◌then◌else◌, is_ok};
ghost use Rattle.routing.specs.Calls.{bar, done, lay, numbered, reprice, unbar};
ghost use Rattle.routing.specs.Does.{Serves};
ghost use Rattle.routing.specs.Orders.{Meaning};
ghost use Rattle.book.specs.Answers.{answer_by};
ghost use Rattle.book.specs.State.{state_of};

use super::refusal::Refusal;
use super::{Book, Phase};
use routing::{Length, Trunk};

impl Book {
    // Lays an open trunk, and answers its number.
    pub fn lay<L: Length>(
        &mut self,
        lengths: &mut [L],
        from: u16,
        to: u16,
        length: L,
    ) -> Result<u16, Refusal>
        ensures serves { Serves L.Length.kind (Meaning L.Length.kind self.old.n) (state_of self.old lengths.old) (lay from to length) (answer_by (λ t. numbered t) result) (state_of self.new lengths.new) }
        ensures refused { is_ok result ≡ false → self.new ≡ self.old }
    {
        self.may_lay(lengths, from, to, length)?;
        let t = self.trunks.len();
        self.trunks.push_reserved(Trunk {
            from,
            to,
            barred: false,
        });
        lengths[self.n + t] = length;
        self.phase = Phase::Idle;
        Ok(t as u16)
    }

    // Gives a laid trunk, open or barred, a new length.
    pub fn reprice<L: Length>(
        &mut self,
        lengths: &mut [L],
        t: u16,
        length: L,
    ) -> Result<(), Refusal>
        ensures serves { Serves L.Length.kind (Meaning L.Length.kind self.old.n) (state_of self.old lengths.old) (reprice t length) (answer_by (λ _. done) result) (state_of self.new lengths.new) }
        ensures refused { is_ok result ≡ false → self.new ≡ self.old }
    {
        self.may_reprice(lengths, t, length)?;
        lengths[self.n + t as usize] = length;
        self.phase = Phase::Idle;
        Ok(())
    }
    // Closes a laid trunk; one that is closed stays so.
    pub fn bar<L: Length>(&mut self, lengths: &[L], t: u16) -> Result<(), Refusal>
        ensures serves { Serves L.Length.kind (Meaning L.Length.kind self.old.n) (state_of self.old lengths.now) (bar t) (answer_by (λ _. done) result) (state_of self.new lengths.now) }
        ensures refused { is_ok result ≡ false → self.new ≡ self.old }
    {
        self.set_barred(lengths, t, true)
    }

    // Opens a laid trunk; one that is open stays so.
    pub fn unbar<L: Length>(&mut self, lengths: &[L], t: u16) -> Result<(), Refusal>
        ensures serves { Serves L.Length.kind (Meaning L.Length.kind self.old.n) (state_of self.old lengths.now) (unbar t) (answer_by (λ _. done) result) (state_of self.new lengths.now) }
        ensures refused { is_ok result ≡ false → self.new ≡ self.old }
    {
        self.set_barred(lengths, t, false)
    }

    // Closes or opens a laid trunk.
    fn set_barred<L: Length>(&mut self, lengths: &[L], t: u16, barred: bool) -> Result<(), Refusal>
        ensures serves { Serves L.Length.kind (Meaning L.Length.kind self.old.n) (state_of self.old lengths.now) (if barred then bar t else unbar t) (answer_by (λ _. done) result) (state_of self.new lengths.now) }
        ensures refused { is_ok result ≡ false → self.new ≡ self.old }
    {
        self.may_bar(lengths, t)?;
        self.trunks[t as usize].barred = barred;
        self.phase = Phase::Idle;
        Ok(())
    }
}
