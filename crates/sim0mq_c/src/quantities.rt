// The calls of boundary_sums, which add and subtract two scalars, for C and Rust.
ghost use Rattle.std.specs.Prelude.{◌≡◌};
ghost use Rattle.sums.specs.Sums.{sum_of, difference_of};
ghost use Rattle.boundary_casting.specs.Casting.{mark_from, scalar_from, value_numbers};
ghost use Rattle.boundary_giving.specs.Given.{returned, answer_after};

// The sum of two scalars, in the 7 numbers of `value_numbers`.
#[unsafe(no_mangle)]
pub extern "C" fn sim0mq_sum(
    kind: u8,
    bits: u64,
    unit: u8,
    currency: u16,
    display: u8,
    kind2: u8,
    bits2: u64,
    unit2: u8,
    currency2: u16,
    display2: u8,
    answer: &mut [u64],
) -> u32
    ensures returned { result ≡ returned 7 answer.old
        (value_numbers (sum_of (scalar_from kind bits (mark_from unit currency display))
        (scalar_from kind2 bits2 (mark_from unit2 currency2 display2)))) }
    ensures answered { answer.new
        ≡ answer_after 7 answer.old
        (value_numbers (sum_of (scalar_from kind bits (mark_from unit currency display))
        (scalar_from kind2 bits2 (mark_from unit2 currency2 display2)))) }
{
    boundary_sums::sim0mq_sum(
        kind, bits, unit, currency, display, kind2, bits2, unit2, currency2, display2, answer,
    )
}

// The difference of two scalars, the second taken from the first, in the same numbers.
#[unsafe(no_mangle)]
pub extern "C" fn sim0mq_difference(
    kind: u8,
    bits: u64,
    unit: u8,
    currency: u16,
    display: u8,
    kind2: u8,
    bits2: u64,
    unit2: u8,
    currency2: u16,
    display2: u8,
    answer: &mut [u64],
) -> u32
    ensures returned { result ≡ returned 7 answer.old
        (value_numbers (difference_of (scalar_from kind bits (mark_from unit currency display))
        (scalar_from kind2 bits2 (mark_from unit2 currency2 display2)))) }
    ensures answered { answer.new
        ≡ answer_after 7 answer.old
        (value_numbers (difference_of (scalar_from kind bits (mark_from unit currency display))
        (scalar_from kind2 bits2 (mark_from unit2 currency2 display2)))) }
{
    boundary_sums::sim0mq_difference(
        kind, bits, unit, currency, display, kind2, bits2, unit2, currency2, display2, answer,
    )
}
