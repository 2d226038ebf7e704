// Texts put into a lent buffer, and bytes of it cleared.
#![tactic(auto)]

ghost use Rattle.std.specs.Prelude.{◌≡◌};
ghost use Rattle.sim0mq_buffers.specs.Placing.{put_in, cleared_in};

// The bytes of `text` in `out` from `at` on, where there is room for them.
#[tactic(auto, unfolding(crate::specs::Placing::put_in, sim0mq::specs::Table::placed))]
pub fn put(text: &[u8], out: &mut [u8], at: usize)
    ensures { out.new ≡ put_in out.old at text.now }
{
    if out.len() < at {
        return;
    }
    if out.len() - at < text.len() {
        return;
    }
    match text {
        [x] => out[at] = *x,
        _ => out[at..at + text.len()].copy_from_slice(text),
    }
}

// Zero in the n bytes of `out` from `at` on, where there is room for them. One byte and eight bytes, as a double or a
// long has them, have a way of their own, which is no call.
#[tactic(auto, using(std::proofs::lemmas::List::Edits::fill_more), unfolding(crate::specs::Placing::cleared_in, sim0mq::specs::Blank::zeroed))]
pub fn clear(out: &mut [u8], at: usize, n: usize)
    ensures { out.new ≡ cleared_in out.old at n }
{
    if out.len() < at {
        return;
    }
    if out.len() - at < n {
        return;
    }
    match n {
        1 => out[at] = 0,
        8 => out[at..at + 8].copy_from_slice(&[0; 8]),
        _ => {
            for x in &mut out[at..at + n] {
                *x = 0;
            }
        }
    }
}
