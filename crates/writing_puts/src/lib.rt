// Numbers put into a buffer, and the bits that a signed number is put as.
#![tactic(auto)]

ghost use Rattle.std.specs.Prelude.{◌≡◌};
ghost use Rattle.sim0mq_numbers.specs.Bytes.{big_bytes};
ghost use Rattle.sim0mq_buffers.specs.Placing.{put_in};
ghost use Rattle.writing_puts.specs.Placing.{number_text};
ghost use Rattle.writing_puts.specs.Signed.{bits_up_to};

// The n bytes that x is written in, the first weighing most, in `out` from `at` on, where there is room for them.
#[tactic(auto, using(crate::proofs::PlaceLaws::puts), unfolding(sim0mq_numbers::specs::Bytes::big_bytes))]
pub fn put_big(out: &mut [u8], at: usize, n: usize, x: u64)
    ensures { out.new ≡ put_in out.old at (big_bytes n x) }
{
    if out.len() < at {
        return;
    }
    if out.len() - at < n {
        return;
    }
    let mut rest = x;
    for i in (0..n).rev() {
        out[at + i] = (rest % 256) as u8;
        rest /= 256;
    }
}

// A field that is one number of n bytes, its code and the number, in `out` from `at` on, where there is room for it.
#[tactic(auto, using(crate::proofs::PlaceLaws::puts))]
pub fn put_number(out: &mut [u8], at: usize, code: u8, n: usize, x: u64)
    ensures { out.new ≡ put_in out.old at (number_text code n x) }
{
    if out.len() < at {
        return;
    }
    if out.len() - at <= n {
        return;
    }
    out[at] = code;
    put_big(out, at + 1, n, x);
}

// The bits of z in a width whose largest number is `most`; 0 where that width has none for it.
#[tactic(auto, unfolding(crate::specs::Signed::bits_up_to))]
pub fn bits(z: i64, most: u64) -> u64
    ensures { result ≡ bits_up_to most z }
{
    if z < 0 {
        most.saturating_sub(!z as u64)
    } else {
        z as u64
    }
}
