// Standard input, read into a lent buffer.
#![tactic(auto)]

ghost use Rattle.programs_input.specs.Input.{Took, Within};

use std::io::{self, Read};

// How many bytes of the input stand at the front of `buf`, which is then full or has the whole input; or why a read
// failed. The input is standard input, as `rt.stdin()`, or another reader.
pub fn fill<R: Read>(input: &mut R, buf: &mut [u8]) -> io::Result<usize>
    ensures within { Within result buf.new }
    ensures bytes { Took (R.remaining input.old) (R.remaining input.new) result buf.new }
{
    let mut at = 0;
    while at < buf.len() {
        match input.read(&mut buf[at..])? {
            0 => break,
            more => at += more,
        }
    }
    Ok(at)
}
