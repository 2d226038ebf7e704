// Temperature and AbsoluteTemperature, which make a pair: their sums are those of relative.rt and absolute.rt, alone.
use crate::absolute::Absolute;
use crate::quantity::Quantity;
use crate::relative::Relative;
use crate::shown::Shown;

// A temperature, which is relative: unit type 23.
#[derive(Clone, Copy)]
pub struct Temperature(pub Shown);

// An absolute temperature, which is absolute: unit type 24.
#[derive(Clone, Copy)]
pub struct AbsoluteTemperature(pub Shown);

impl Quantity for Temperature {
    ghost number = { λ a. a.0 };

    ghost told_by_number = { λ a b e i. record { 0 = e i } };

    fn of(x: Shown) -> Temperature {
        Temperature(x)
    }

    fn shown(self) -> Shown {
        self.0
    }
}

impl Quantity for AbsoluteTemperature {
    ghost number = { λ a. a.0 };

    ghost told_by_number = { λ a b e i. record { 0 = e i } };

    fn of(x: Shown) -> AbsoluteTemperature {
        AbsoluteTemperature(x)
    }

    fn shown(self) -> Shown {
        self.0
    }
}

impl Relative for Temperature {
    type Absolute = AbsoluteTemperature;
}

impl Absolute for AbsoluteTemperature {
    type Relative = Temperature;
}
