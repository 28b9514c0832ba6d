ghost use Rattle.std.specs.Prelude.{◌≡◌, ◌≤◌, true, ◌↔◌, nat_le};

use routing::Length;

// A kind of length with limits to what may be laid.
pub trait Limited: Length {
    // That a length is within the limits of its kind.
    ghost Within: { Self → Type 0 };

    // Whether the length may be laid: its extent is then at most 1.
    fn may_be_laid(self) -> bool
        ensures within { result ≡ true ↔ Within self }
        ensures small { result ≡ nat_le (Self.kind.extent (Self.kind.value self)) 1 }
    {
        self.extent() <= 1
    }

    // An extent of at most 1 is one within the limits.
    ghost covered: { (x : Self) → (Self.kind.extent (Self.kind.value x) ≤ 1) ↔ Within x };
}
