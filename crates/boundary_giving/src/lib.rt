// Numbers stored in the answer that a caller lends.
#![tactic(auto)]

ghost use Rattle.std.specs.Prelude.{◌≡◌, length};
ghost use Rattle.boundary_giving.specs.Given.{returned, answer_after};

// What the caller gets where the lent answer is too short.
pub const TOO_SHORT: u32 = 255;

// Stores the numbers at the front of `answer`, and returns the first of them, or 0 where there are none; where there is
// no room for all of them, stores none and returns 255.
#[tactic(auto, unfolding(crate::specs::Given::given, crate::specs::Given::returned, crate::specs::Given::answer_after, sim0mq::specs::Table::stored))]
pub fn give(numbers: &[u64], answer: &mut [u64]) -> u64
    ensures returned { result ≡ returned (length numbers.now) answer.old numbers.now }
    ensures stored { answer.new
        ≡ answer_after (length numbers.now) answer.old numbers.now }
{
    if answer.len() < numbers.len() {
        return u64::from(TOO_SHORT);
    }
    answer[..numbers.len()].copy_from_slice(numbers);
    numbers.first().copied().unwrap_or(0)
}
