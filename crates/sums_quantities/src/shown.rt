// A number with its display code, and the one addition and the one subtraction of them.
ghost use Rattle.std.specs.Prelude.{◌≡◌};
ghost use Rattle.sums_quantities.specs.Numbers.{plus as plus_of, less as less_of};

#[derive(Clone, Copy)]
pub struct Shown {
    pub value: f64,
    pub display: u8,
}

// a + b, rounded once, shown by d.
pub fn plus(a: Shown, b: Shown, d: u8) -> Shown
    ensures { result ≡ plus_of a b d }
{
    Shown {
        value: a.value + b.value,
        display: d,
    }
}

// a - b, rounded once, shown by d.
pub fn less(a: Shown, b: Shown, d: u8) -> Shown
    ensures { result ≡ less_of a b d }
{
    Shown {
        value: a.value - b.value,
        display: d,
    }
}
