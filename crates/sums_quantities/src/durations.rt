// Duration and Time, which make a pair: their sums are those of relative.rt and absolute.rt, alone.
use crate::absolute::Absolute;
use crate::quantity::Quantity;
use crate::relative::Relative;
use crate::shown::Shown;

// A duration, which is relative: unit type 25.
#[derive(Clone, Copy)]
pub struct Duration(pub Shown);

// A time, which is absolute: unit type 26.
#[derive(Clone, Copy)]
pub struct Time(pub Shown);

impl Quantity for Duration {
    ghost number = { λ a. a.0 };

    ghost told_by_number = { λ a b e i. record { 0 = e i } };

    fn of(x: Shown) -> Duration {
        Duration(x)
    }

    fn shown(self) -> Shown {
        self.0
    }
}

impl Quantity for Time {
    ghost number = { λ a. a.0 };

    ghost told_by_number = { λ a b e i. record { 0 = e i } };

    fn of(x: Shown) -> Time {
        Time(x)
    }

    fn shown(self) -> Shown {
        self.0
    }
}

impl Relative for Duration {
    type Absolute = Time;
}

impl Absolute for Time {
    type Relative = Duration;
}
