// Pieces of text put into a lent buffer, one after the other.
//
// Each call answers the place where the next piece goes. A piece that does not fit leaves the place past the buffer,
// and so does each piece after it, so that one test at the end tells whether the whole text is there.
#![tactic(auto)]

ghost use Rattle.std.specs.Prelude.{◌≡◌};
ghost use Rattle.programs_pieces.specs.Put.{place_after, with_text};
ghost use Rattle.programs_pieces.specs.Decimal.{decimal};

// The place after `text`, put from `from` on; one past the end of `out`, which is left as it was, where the text does
// not fit.
#[tactic(auto, unfolding(crate::specs::Put::place_after, crate::specs::Put::with_text))]
pub fn put(text: &[u8], out: &mut [u8], from: usize) -> usize
    ensures value { result ≡ place_after out.old from text.now }
    ensures out_after { out.new ≡ with_text out.old from text.now }
{
    if out.len() < from {
        return out.len() + 1;
    }
    if out.len() - from < text.len() {
        return out.len() + 1;
    }
    out[from..from + text.len()].copy_from_slice(text);
    from + text.len()
}

// The place after n's decimal digits, put from `from` on.
#[tactic(auto, using(crate::proofs::DecimalCases::decimal_eq))]
pub fn number(n: u64, out: &mut [u8], from: usize) -> usize
    ensures value { result ≡ place_after out.old from (decimal n) }
    ensures out_after { out.new ≡ with_text out.old from (decimal n) }
{
    let mut digits = [0u8; 20];
    let k = io::decimal(n, &mut digits);
    put(&digits[..k], out, from)
}
