// The two stores as rings (01 What the bridge is).
ghost use Rattle.std.specs.Prelude.{◌≡◌, ◌-◌};
ghost use Rattle.state.specs.Facts.{RingFit};
ghost use Rattle.state.specs.Rings.{popped as popped_of};

use crate::Ring;

// The number before, or 0.
pub fn less_one(n: u16) -> u16
    ensures { result ≡ n - 1 }
{
    n.saturating_sub(1)
}

// "Reading moves head on": the oldest word is taken from a ring of `size` cells.
pub fn popped(ring: Ring, size: u16) -> Ring
    requires { RingFit size ring }
    ensures { result ≡ popped_of size ring }
{
    Ring {
        head: (ring.head + 1) % size,
        count: less_one(ring.count),
    }
}
