// The library's calls for C and Rust that add and subtract two scalars: each crosses as its kind, its bits and the
// three numbers of its mark, as `sim0mq_value` answers them, and so does the result.
#![tactic(auto)]

ghost use Rattle.std.specs.Prelude.{◌≡◌};
ghost use Rattle.sums.specs.Sums.{sum_of, difference_of};
ghost use Rattle.boundary_casting.specs.Casting.{mark_from, scalar_from, value_numbers};
ghost use Rattle.boundary_giving.specs.Given.{returned, answer_after};

use boundary_casting::{give_value, scalar_from};
use sim0mq_kinds::{Mark, Scalar};
use sums::{difference, sum};

// The scalar of this kind, these bits and a mark of these numbers.
fn operand(kind: u8, bits: u64, unit: u8, currency: u16, display: u8) -> Scalar
    ensures { result ≡ scalar_from kind bits (mark_from unit currency display) }
{
    let mark = Mark {
        unit,
        currency,
        display,
    };
    scalar_from(kind, bits, mark)
}

// The sum of two scalars, in the 7 numbers of `value_numbers`.
pub fn sim0mq_sum(
    kind: u8,
    bits: u64,
    unit: u8,
    currency: u16,
    display: u8,
    kind2: u8,
    bits2: u64,
    unit2: u8,
    currency2: u16,
    display2: u8,
    answer: &mut [u64],
) -> u32
    ensures returned { result ≡ returned 7 answer.old
        (value_numbers (sum_of (scalar_from kind bits (mark_from unit currency display))
        (scalar_from kind2 bits2 (mark_from unit2 currency2 display2)))) }
    ensures answered { answer.new
        ≡ answer_after 7 answer.old
        (value_numbers (sum_of (scalar_from kind bits (mark_from unit currency display))
        (scalar_from kind2 bits2 (mark_from unit2 currency2 display2)))) }
{
    let a = operand(kind, bits, unit, currency, display);
    let b = operand(kind2, bits2, unit2, currency2, display2);
    give_value(sum(a, b), answer)
}

// The difference of two scalars, the second taken from the first, in the same numbers.
pub fn sim0mq_difference(
    kind: u8,
    bits: u64,
    unit: u8,
    currency: u16,
    display: u8,
    kind2: u8,
    bits2: u64,
    unit2: u8,
    currency2: u16,
    display2: u8,
    answer: &mut [u64],
) -> u32
    ensures returned { result ≡ returned 7 answer.old
        (value_numbers (difference_of (scalar_from kind bits (mark_from unit currency display))
        (scalar_from kind2 bits2 (mark_from unit2 currency2 display2)))) }
    ensures answered { answer.new
        ≡ answer_after 7 answer.old
        (value_numbers (difference_of (scalar_from kind bits (mark_from unit currency display))
        (scalar_from kind2 bits2 (mark_from unit2 currency2 display2)))) }
{
    let a = operand(kind, bits, unit, currency, display);
    let b = operand(kind2, bits2, unit2, currency2, display2);
    give_value(difference(a, b), answer)
}
