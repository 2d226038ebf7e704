// The manual's sums that begin with a relative quantity, and no other: an absolute one is never taken from it.
ghost use Rattle.std.specs.Prelude.{◌≡◌};
ghost use Rattle.sums_quantities.specs.Numbers.{plus as plus_of, less as less_of};

use crate::quantity::Quantity;
use crate::shown::{less, plus};

// A relative quantity, with the absolute one of its pair.
pub trait Relative: Quantity {
    type Absolute: Quantity;

    // The sum of both, shown as the first is.
    final fn plus(self, b: Self) -> Self
        ensures { Self.number result ≡ plus_of (Self.number self) (Self.number b) (Self.number self).display }
    {
        Self::of(plus(self.shown(), b.shown(), self.shown().display))
    }

    // The absolute quantity that both make, shown as that absolute one is.
    final fn plus_absolute(self, b: Self::Absolute) -> Self::Absolute
        ensures { Self.Absolute.number result ≡
            plus_of (Self.number self) (Self.Absolute.number b) (Self.Absolute.number b).display }
    {
        Self::Absolute::of(plus(self.shown(), b.shown(), b.shown().display))
    }

    // What is left of the first, shown as it is.
    final fn less(self, b: Self) -> Self
        ensures { Self.number result ≡ less_of (Self.number self) (Self.number b) (Self.number self).display }
    {
        Self::of(less(self.shown(), b.shown(), self.shown().display))
    }
}
