// The sum and the difference of two scalars, as asking returns them: each scalar is read as the quantity that its mark
// says, and only the manual's sums and differences of two quantities are there to be taken.
#![tactic(auto)]

ghost use Rattle.std.specs.Prelude.{◌≡◌};
ghost use Rattle.asking_scalars.specs.Scalars.{valued};
ghost use Rattle.sums_pairs.specs.Views.{seen};
ghost use Rattle.sums.specs.Sums.{finite as finite_of, sum_of, difference_of};
ghost use Rattle.sums.specs.Views.{known_as, read_of, shown_as, resulting};

use sim0mq::{Reason, Refusal, refuse};
use sim0mq_kinds::{Mark, Scalar};
use sums_pairs::{Quantity, add, quantity_of, subtract};
use sums_quantities::shown::Shown;
use writing_encoding::mark_taken;

// The quantity that a scalar is; 17 where it is no double with a mark that reading gives.
fn read(a: Scalar) -> Result<Quantity, Refusal>
    ensures { known_as result ≡ read_of a }
{
    match a {
        Scalar::DoubleUnit(value, mark) => {
            if !mark_taken(mark) {
                return refuse(Reason::Kind, 0);
            }
            let x = Shown {
                value,
                display: mark.display,
            };
            Ok(quantity_of(mark.unit, x))
        }
        _ => refuse(Reason::Kind, 0),
    }
}

// Whether x is a number and no infinity: an infinity less itself is a NaN, and a NaN differs from itself.
fn finite(x: f64) -> bool
    ensures { result ≡ finite_of x }
{
    let d = x - x;
    d == d
}

// A number of this unit type as a scalar, where it is finite.
fn told(unit: u8, x: Shown) -> Result<Scalar, Refusal>
    ensures { valued result ≡ shown_as unit x }
{
    if !finite(x.value) {
        return refuse(Reason::NotFinite, 0);
    }
    let mark = Mark {
        unit,
        currency: 0,
        display: x.display,
    };
    Ok(Scalar::DoubleUnit(x.value, mark))
}

// A quantity as a scalar; the refusal where it is none, or is not finite.
fn result(q: Quantity) -> Result<Scalar, Refusal>
    ensures { valued result ≡ resulting (seen q) }
{
    match q {
        Quantity::Length(x) => told(16, x.0),
        Quantity::Position(x) => told(17, x.0),
        Quantity::Duration(x) => told(25, x.0),
        Quantity::Time(x) => told(26, x.0),
        Quantity::Angle(x) => told(3, x.0),
        Quantity::Direction(x) => told(4, x.0),
        Quantity::Temperature(x) => told(23, x.0),
        Quantity::AbsoluteTemperature(x) => told(24, x.0),
        Quantity::Other => refuse(Reason::Pair, 0),
    }
}

// The sum of two scalars, or the refusal.
pub fn sum(a: Scalar, b: Scalar) -> Result<Scalar, Refusal>
    ensures { valued result ≡ sum_of a b }
{
    let x = read(a)?;
    let y = read(b)?;
    result(add(x, y))
}

// The difference of two scalars, the second taken from the first; or the refusal.
pub fn difference(a: Scalar, b: Scalar) -> Result<Scalar, Refusal>
    ensures { valued result ≡ difference_of a b }
{
    let x = read(a)?;
    let y = read(b)?;
    result(subtract(x, y))
}
