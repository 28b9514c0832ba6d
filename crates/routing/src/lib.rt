#![tactic(auto)]

ghost use Rattle.std.specs.Prelude.{◌≡◌, ℕ};
ghost use Rattle.routing.specs.Kind.{Kind};

// A kind of length. What it means and the laws that it keeps are in `kind`, and code knows no more of it.
pub trait Length: Copy {
    ghost kind: { Kind Self };

    // How many bytes a length has on a tape.
    ghost WIDTH: { ℕ };

    const WIDTH: usize;

    fn zero() -> Self
        ensures { result ≡ kind.none };

    // A method and not `+`, which would need two laws in place of this clause: that any two may be added, and what they give.
    fn add(self, other: Self) -> Self
        ensures { result ≡ kind.add self other };

    // A method, since what is compared are the exact values.
    fn not_above(self, other: Self) -> bool
        ensures { result ≡ kind.not_above (kind.value self) (kind.value other) };

    fn extent(self) -> u64
        ensures { result ≡ kind.extent (kind.value self) };
}

// A trunk is known by its place in the table.
#[derive(Clone, Copy)]
pub struct Trunk {
    pub from: u16,
    pub to: u16,
    pub barred: bool,
}

// How far a run has come. `Looped(v, t)`: trunk t leaves v and closes the loop.
#[derive(Clone, Copy)]
pub enum Verdict {
    Working,
    Settled,
    Looped(u16, u16),
}
