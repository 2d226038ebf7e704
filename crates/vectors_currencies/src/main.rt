// Writes each currency code that judging a mark takes, of all 65,536 that two bytes can write. What it must write is
// another copy of the manual's Appendix A, section 100, than the definition's row: the same codes in numeric order.
#![tactic(auto)]

use std::io;

// Writes the currency code c, if the mark of unit type 100 with it is taken.
fn judge(rt: &impl Print, c: u16) -> io::Result<()> {
    let [high, low] = c.to_be_bytes();
    match sim0mq_marks::mark(&[100, high, low], 0) {
        Ok(_) => println!(rt; "{c}"),
        Err(_) => Ok(()),
    }
}

fn main(rt: HostRuntime) -> io::Result<()> {
    for c in 0..=u16::MAX {
        judge(&rt, c)?;
    }
    Ok(())
}
