// The four pairs of a relative and an absolute quantity: which quantity a unit type says, and the manual's sums and
// differences of two.
#![tactic(auto)]

ghost use Rattle.std.specs.Prelude.{◌≡◌};
ghost use Rattle.sums_pairs.specs.Pairs.{quantity_at, quantity_sum, quantity_difference};
ghost use Rattle.sums_pairs.specs.Views.{seen, combined};

use sums_quantities::absolute::Absolute;
use sums_quantities::angles::{Angle, Direction};
use sums_quantities::durations::{Duration, Time};
use sums_quantities::lengths::{Length, Position};
use sums_quantities::relative::Relative;
use sums_quantities::shown::Shown;
use sums_quantities::temperatures::{AbsoluteTemperature, Temperature};

// A quantity of one of the four pairs; or none, which can't be combined.
#[derive(Clone, Copy)]
pub enum Quantity {
    Length(Length),
    Position(Position),
    Duration(Duration),
    Time(Time),
    Angle(Angle),
    Direction(Direction),
    Temperature(Temperature),
    AbsoluteTemperature(AbsoluteTemperature),
    Other,
}

// The quantity of this unit type.
#[tactic(auto, unfolding(crate::specs::Pairs::quantity_in))]
pub fn quantity_of(unit: u8, x: Shown) -> Quantity
    ensures { seen result ≡ quantity_at unit x }
{
    match unit {
        16 => Quantity::Length(Length(x)),
        17 => Quantity::Position(Position(x)),
        25 => Quantity::Duration(Duration(x)),
        26 => Quantity::Time(Time(x)),
        3 => Quantity::Angle(Angle(x)),
        4 => Quantity::Direction(Direction(x)),
        23 => Quantity::Temperature(Temperature(x)),
        24 => Quantity::AbsoluteTemperature(AbsoluteTemperature(x)),
        _ => Quantity::Other,
    }
}

// The sum of two quantities, where the manual has one.
#[tactic(auto, unfolding(crate::specs::Pairs::quantity_sum))]
pub fn add(a: Quantity, b: Quantity) -> Quantity
    ensures { seen result ≡ combined quantity_sum (seen a) (seen b) }
{
    match (a, b) {
        (Quantity::Length(x), Quantity::Length(y)) => Quantity::Length(x.plus(y)),
        (Quantity::Length(x), Quantity::Position(y)) => Quantity::Position(x.plus_absolute(y)),
        (Quantity::Position(x), Quantity::Length(y)) => Quantity::Position(x.plus(y)),
        (Quantity::Duration(x), Quantity::Duration(y)) => Quantity::Duration(x.plus(y)),
        (Quantity::Duration(x), Quantity::Time(y)) => Quantity::Time(x.plus_absolute(y)),
        (Quantity::Time(x), Quantity::Duration(y)) => Quantity::Time(x.plus(y)),
        (Quantity::Angle(x), Quantity::Angle(y)) => Quantity::Angle(x.plus(y)),
        (Quantity::Angle(x), Quantity::Direction(y)) => Quantity::Direction(x.plus_absolute(y)),
        (Quantity::Direction(x), Quantity::Angle(y)) => Quantity::Direction(x.plus(y)),
        (Quantity::Temperature(x), Quantity::Temperature(y)) => Quantity::Temperature(x.plus(y)),
        (Quantity::Temperature(x), Quantity::AbsoluteTemperature(y)) =>
            Quantity::AbsoluteTemperature(x.plus_absolute(y)),
        (Quantity::AbsoluteTemperature(x), Quantity::Temperature(y)) =>
            Quantity::AbsoluteTemperature(x.plus(y)),
        _ => Quantity::Other,
    }
}

// The difference of two quantities, where the manual has one.
#[tactic(auto, unfolding(crate::specs::Pairs::quantity_difference))]
pub fn subtract(a: Quantity, b: Quantity) -> Quantity
    ensures { seen result ≡ combined quantity_difference (seen a) (seen b) }
{
    match (a, b) {
        (Quantity::Length(x), Quantity::Length(y)) => Quantity::Length(x.less(y)),
        (Quantity::Position(x), Quantity::Length(y)) => Quantity::Position(x.less(y)),
        (Quantity::Position(x), Quantity::Position(y)) => Quantity::Length(x.less_absolute(y)),
        (Quantity::Duration(x), Quantity::Duration(y)) => Quantity::Duration(x.less(y)),
        (Quantity::Time(x), Quantity::Duration(y)) => Quantity::Time(x.less(y)),
        (Quantity::Time(x), Quantity::Time(y)) => Quantity::Duration(x.less_absolute(y)),
        (Quantity::Angle(x), Quantity::Angle(y)) => Quantity::Angle(x.less(y)),
        (Quantity::Direction(x), Quantity::Angle(y)) => Quantity::Direction(x.less(y)),
        (Quantity::Direction(x), Quantity::Direction(y)) => Quantity::Angle(x.less_absolute(y)),
        (Quantity::Temperature(x), Quantity::Temperature(y)) => Quantity::Temperature(x.less(y)),
        (Quantity::AbsoluteTemperature(x), Quantity::Temperature(y)) =>
            Quantity::AbsoluteTemperature(x.less(y)),
        (Quantity::AbsoluteTemperature(x), Quantity::AbsoluteTemperature(y)) =>
            Quantity::Temperature(x.less_absolute(y)),
        _ => Quantity::Other,
    }
}
