// Currency codes and display codes: which of them are taken.
#![tactic(auto)]

ghost use Rattle.std.specs.Prelude.{◌≡◌, ℕ, ◌+◌, ◌*◌, ◌<◌};
ghost use Rattle.sim0mq_tables.specs.Bits.{bit};
ghost use Rattle.sim0mq.specs.Mark.{currency_taken, display_taken};

use sim0mq_numbers::wide;
use sim0mq_tables::last;

// The currency codes from 64 w to 64 w + 63: a bit for each, the least code's last.
fn currencies(w: usize) -> usize
    ensures { (k : ℕ) → k < 64 → bit result k ≡ currency_taken (w * 64 + k) }
{
    match w {
        0 => 0x101d_1011_0000_1100,
        1 => 0x1010_1101_0410_0111,
        2 => 0x9000_4400_1101_0110,
        3 => 0x0004_4140_4041_0801,
        4 => 0x0000_0010_0000_4040,
        5 => 0x0101_1111_1110_1111,
        6 => 0x4004_4446_4511_4110,
        7 => 0x0105_0011_4000_4440,
        8 => 0x0040_4410_0030_1011,
        9 => 0x0400_0001_1140_4404,
        10 => 0x4044_0440_0000_4048,
        11 => 0x1111_1000_0100_0045,
        12 => 0x0404_0081_0011_1100,
        13 => 0x0044_0000_1400_0104,
        14 => 0xfbfd_b778_0000_0020,
        15 => 0x0000_01a4_473f_ffbf,
        _ => 0,
    }
}

// Whether c is a currency code.
pub fn currency_taken(c: usize) -> bool
    ensures { result ≡ currency_taken c }
{
    (currencies(c / 64) >> (c % 64)) % 2 == 1
}

// Whether d is a display code of unit type t.
pub fn display_taken(t: usize, d: u8) -> bool
    ensures { result ≡ display_taken t d }
{
    wide(d) <= last(t)
}
