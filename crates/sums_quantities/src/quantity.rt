// A quantity is one number with its display code, kept apart from every other quantity by its type.
ghost use Rattle.std.specs.Prelude.{◌≡◌};
ghost use Rattle.sums_quantities.specs.declared.shown.Shown.{Shown};

use crate::shown::Shown;

// A quantity of one type.
pub trait Quantity: Copy {
    ghost number: { Self → Shown };

    // The quantity of this number.
    fn of(x: Shown) -> Self
        ensures { number result ≡ x };

    // Its number.
    fn shown(self) -> Shown
        ensures { result ≡ number self };

    // It is nothing beside its number.
    ghost told_by_number: { (a b : Self) → number a ≡ number b → a ≡ b };
}
