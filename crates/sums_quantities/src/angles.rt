// Angle and Direction, which make a pair: their sums are those of relative.rt and absolute.rt, alone.
use crate::absolute::Absolute;
use crate::quantity::Quantity;
use crate::relative::Relative;
use crate::shown::Shown;

// An angle, which is relative: unit type 3.
#[derive(Clone, Copy)]
pub struct Angle(pub Shown);

// A direction, which is absolute: unit type 4.
#[derive(Clone, Copy)]
pub struct Direction(pub Shown);

impl Quantity for Angle {
    ghost number = { λ a. a.0 };

    ghost told_by_number = { λ a b e i. record { 0 = e i } };

    fn of(x: Shown) -> Angle {
        Angle(x)
    }

    fn shown(self) -> Shown {
        self.0
    }
}

impl Quantity for Direction {
    ghost number = { λ a. a.0 };

    ghost told_by_number = { λ a b e i. record { 0 = e i } };

    fn of(x: Shown) -> Direction {
        Direction(x)
    }

    fn shown(self) -> Shown {
        self.0
    }
}

impl Relative for Angle {
    type Absolute = Direction;
}

impl Absolute for Direction {
    type Relative = Angle;
}
