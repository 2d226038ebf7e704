// The signed number that some bits write, of each of the four widths.
#![tactic(auto, unfolding(crate::specs::Signed::twos))]

ghost use Rattle.std.specs.Prelude.{◌≡◌};
ghost use Rattle.sim0mq_signed.specs.Signed.{twos};

// The signed number of 8 bits that x writes in two's complement.
pub fn i8_of(x: u8) -> i8
    ensures { result ≡ twos 8 x }
{
    u8::cast_signed(x)
}

// The signed number of 16 bits that x writes in two's complement.
pub fn i16_of(x: u16) -> i16
    ensures { result ≡ twos 16 x }
{
    u16::cast_signed(x)
}

// The signed number of 32 bits that x writes in two's complement.
pub fn i32_of(x: u32) -> i32
    ensures { result ≡ twos 32 x }
{
    u32::cast_signed(x)
}

// The signed number of 64 bits that x writes in two's complement.
pub fn i64_of(x: u64) -> i64
    ensures { result ≡ twos 64 x }
{
    u64::cast_signed(x)
}
