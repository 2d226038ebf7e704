// Length and Position, which make a pair: their sums are those of relative.rt and absolute.rt, alone.
use crate::absolute::Absolute;
use crate::quantity::Quantity;
use crate::relative::Relative;
use crate::shown::Shown;

// A length, which is relative: unit type 16.
#[derive(Clone, Copy)]
pub struct Length(pub Shown);

// A position, which is absolute: unit type 17.
#[derive(Clone, Copy)]
pub struct Position(pub Shown);

impl Quantity for Length {
    ghost number = { λ a. a.0 };

    ghost told_by_number = { λ a b e i. record { 0 = e i } };

    fn of(x: Shown) -> Length {
        Length(x)
    }

    fn shown(self) -> Shown {
        self.0
    }
}

impl Quantity for Position {
    ghost number = { λ a. a.0 };

    ghost told_by_number = { λ a b e i. record { 0 = e i } };

    fn of(x: Shown) -> Position {
        Position(x)
    }

    fn shown(self) -> Shown {
        self.0
    }
}

impl Relative for Length {
    type Absolute = Position;
}

impl Absolute for Position {
    type Relative = Length;
}
