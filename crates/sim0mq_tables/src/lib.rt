// The rows of the format's tables (specs Codes and Mark of sim0mq). Those of field codes are written as code, since a
// constant array is laid out anew at each lookup; those of display codes are rows, to be held against the manual's
// page.
#![tactic(auto)]

ghost use Rattle.std.specs.Prelude.{◌≡◌, ◌≤◌, get_or};
ghost use Rattle.sim0mq.specs.Codes.{counts_of, marking_of, width_of};
ghost use Rattle.sim0mq.specs.Mark.{last_row, per_row};
ghost use Rattle.sim0mq_tables.specs.Bits.{bit};
ghost use Rattle.sim0mq_tables.specs.Markings.{marking_number};

use sim0mq_numbers::wide;

// The codes whose values have one byte, four and eight: a bit for each of the codes 0 to 32, the last code's first.
const ONES: usize = 0b0_00000001_00000110_00001010_11000001;

const FOURS: usize = 0b0_10101010_01010000_10100000_00010100;

const EIGHTS: usize = 0b1_01010100_10100001_01000000_00101000;

// The last display code of each unit type, a line for each section of the manual's Appendix A.
const LAST: [u8; 29] = [
    0, // 0 Dimensionless
    8, // 1 Acceleration
    1, // 2 AngleSolid
    6, // 3 Angle
    3, // 4 Direction
    21, // 5 Area
    1, // 6 Density
    16, // 7 ElectricalCharge
    7, // 8 ElectricalCurrent
    8, // 9 ElectricalPotential
    8, // 10 ElectricalResistance
    38, // 11 Energy
    1, // 12 FlowMass
    15, // 13 FlowVolume
    6, // 14 Force
    16, // 15 Frequency
    21, // 16 Length
    21, // 17 Position
    21, // 18 LinearDensity
    24, // 19 Mass
    15, // 20 Power
    16, // 21 Pressure
    13, // 22 Speed
    4, // 23 Temperature
    4, // 24 AbsoluteTemperature
    10, // 25 Duration
    15, // 26 Time
    3, // 27 Torque
    27, // 28 Volume
];

// The unit type whose display codes each money type uses, a line for each (000, 2.2.9 and Appendix A).
const PER: [u8; 6] = [
    5, // 101 MoneyPerArea
    11, // 102 MoneyPerEnergy
    16, // 103 MoneyPerLength
    19, // 104 MoneyPerMass
    25, // 105 MoneyPerDuration
    28, // 106 MoneyPerVolume
];

// How many counts follow a field code.
pub fn counts(code: usize) -> usize
    ensures { result ≡ counts_of code }
{
    if code <= 8 {
        return 0;
    }
    if code <= 17 {
        return 1;
    }
    if code <= 24 {
        return 2;
    }
    if code <= 26 {
        return 0;
    }
    if code <= 28 {
        return 1;
    }
    if code <= 32 {
        return 2;
    }
    0
}

// How many marks a field has: none, one, or one per column.
#[derive(Clone, Copy)]
pub enum Marked {
    None,
    One,
    PerColumn,
}

// The marks of a field code.
pub fn marking(code: usize) -> Marked
    ensures { marking_number result ≡ marking_of code }
{
    if 32 < code {
        return Marked::None;
    }
    if 30 < code {
        return Marked::PerColumn;
    }
    if 24 < code {
        return Marked::One;
    }
    Marked::None
}

// Whether code is one of these codes: a bit for each, the last code's first.
fn among(codes: usize, code: usize) -> bool
    requires { code ≤ 32 }
    ensures { result ≡ bit codes code }
{
    (codes >> code) % 2 == 1
}

// The bytes per value of a field code; 0 where it is none.
pub fn width(code: usize) -> usize
    ensures { result ≡ width_of code }
{
    if 32 < code {
        return 0;
    }
    if among(ONES, code) {
        return 1;
    }
    if among(EIGHTS, code) {
        return 8;
    }
    if among(FOURS, code) {
        return 4;
    }
    2
}

// The row of last display codes, for a caller who looks many of them up: the language lays it out where it is named.
pub fn lasts() -> [u8; 29]
    ensures { result ≡ last_row }
{
    LAST
}

// The last display code of a unit type; 0 where it has none of its own.
pub fn last(t: usize) -> usize
    ensures { result ≡ get_or last_row t 0 }
{
    if t < 29 {
        return wide(LAST[t]);
    }
    0
}

// The unit type whose display codes the money type 101 + k uses; 0 where there is none.
pub fn per(k: usize) -> usize
    ensures { result ≡ get_or per_row k 0 }
{
    if k < 6 {
        return wide(PER[k]);
    }
    0
}
