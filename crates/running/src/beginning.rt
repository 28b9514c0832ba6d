ghost use Rattle.std.specs.Prelude.{◌≡◌, ℕ, ◌<◌, ◌≤◌, [], length, replicate, vec_len, vec_capacity};
ghost use Rattle.routing.specs.Rules.{begun};
ghost use Rattle.running.specs.Work.{run_of, SoundOver, Marked};

use super::Work;
use super::table::Entry;
use routing::{Length, Verdict};

// Makes `items` hold `x`, `n` times. Not by `resize`, which can want memory: there is room.
pub(crate) fn refill<T: Copy>(items: &mut Vec<T>, x: T, n: usize)
    requires { n ≤ vec_capacity items.old }
    ensures items { items.new.items ≡ replicate n x }
    ensures len { vec_len items.new ≡ n }
    ensures cap { vec_capacity items.new ≡ vec_capacity items.old }
{
    items.clear();
    for _ in 0..n {
        items.push_reserved(x);
    }
}

// Makes `items` hold `n` numbers. Those that it held stay, so that a list of about that size costs next to nothing.
pub(crate) fn resize(items: &mut Vec<u16>, n: usize)
    requires { n ≤ vec_capacity items.old }
    ensures len { vec_len items.new ≡ n }
    ensures cap { vec_capacity items.new ≡ vec_capacity items.old }
{
    items.truncate(n);
    for _ in items.len()..n {
        items.push_reserved(0);
    }
}

impl Work {
    // A run from `home` begins.
    pub fn begin<L: Length>(&mut self, lengths: &mut [L], n: usize, home: u16)
        requires home { (home < n) × (n ≤ length lengths.old) }
        requires room { (n ≤ vec_capacity self.old.table.entries) × (n ≤ vec_capacity self.old.waiting) }
        ensures sound { (m : ℕ) → SoundOver n m self.new }
        ensures marked { Marked n self.new [] }
        ensures room { (vec_capacity self.new.table.entries ≡ vec_capacity self.old.table.entries) × (vec_capacity self.new.waiting ≡ vec_capacity self.old.waiting) }
        ensures does { run_of self.new lengths.new ≡ begun L.Length.kind n [] home lengths.old }
    {
        refill(&mut self.table.entries, Entry::default(), n);
        self.table.entries[home as usize] = Entry {
            reached: true,
            arriving: None,
            due: true,
        };
        self.waiting.clear();
        self.waiting.push_reserved(home);
        lengths[home as usize] = L::zero();
        self.passes = 0;
        self.scans = 0;
        self.verdict = Verdict::Working;
    }
}
