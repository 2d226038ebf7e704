// The manual's sums that begin with an absolute quantity, and no other: another absolute one is never added to it.
ghost use Rattle.std.specs.Prelude.{◌≡◌};
ghost use Rattle.sums_quantities.specs.Numbers.{plus as plus_of, less as less_of};

use crate::quantity::Quantity;
use crate::relative::Relative;
use crate::shown::{less, plus};

// An absolute quantity, with the relative one of its pair.
pub trait Absolute: Quantity {
    type Relative: Relative<Absolute = Self>;

    // The absolute quantity that both make, shown as the first is.
    final fn plus(self, b: Self::Relative) -> Self
        ensures { Self.number result ≡ plus_of (Self.number self) (Self.Relative.number b) (Self.number self).display }
    {
        Self::of(plus(self.shown(), b.shown(), self.shown().display))
    }

    // The absolute quantity that is left, shown as the first is.
    final fn less(self, b: Self::Relative) -> Self
        ensures { Self.number result ≡ less_of (Self.number self) (Self.Relative.number b) (Self.number self).display }
    {
        Self::of(less(self.shown(), b.shown(), self.shown().display))
    }

    // The relative quantity between them, shown by 0.
    final fn less_absolute(self, b: Self) -> Self::Relative
        ensures { Self.Relative.number result ≡ less_of (Self.number self) (Self.number b) 0 }
    {
        Self::Relative::of(less(self.shown(), b.shown(), 0))
    }
}
