// Writes the message of the manual's section 2.3.6 to standard output: a worked example of the writer.
#![tactic(auto)]

use sim0mq::CHANGE;
use sim0mq_kinds::Scalar;
use std::io;
use writing::Writer;

// Writes the message, which has 77 bytes; a line to standard error where that cannot be done.
fn main(rt: HostRuntime) -> io::Result<()> {
    let mut out = [0u8; 77];
    let ids = b"\x09\0\0\0\x09IDVV.14.2\x09\0\0\0\x04MC.1\x09\0\0\0\x05MM1.4\x09\0\0\0\x06DSOL.3";
    let opened = Writer::open(ids, 124, CHANGE, 1, Some(1), &mut out).writer;
    let full = opened.add_scalar(Scalar::Double(0.2), &mut out).writer;
    match full.close().said {
        Ok(_) => rt
            .write_all(&out)
            .or_else(|_| rt.eprintln("sample: cannot write standard output")),
        Err(_) => rt.eprintln("sample: the message is refused"),
    }
}
