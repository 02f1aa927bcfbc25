// Reads a scenario text from standard input and writes its record to standard output, byte for byte. Of a refused text it writes nothing
// there, and `refused` with number, line and step to standard error. It lends as much as drumread, so it accepts the same texts; it reads
// a byte more than a text may have, so a longer input is refused too.
#![tactic(auto)]

use console::{Lent, Numbers, PLACES, ROOM, TEXT, read_at_most};
use scenario::{ScenarioAnswer, read_scenario};
use std::io;
use std::io::Write;

fn main(rt: HostRuntime) -> io::Result<()> {
    let mut lent = Lent::new(rt.alloc(), ROOM, PLACES)?;
    let text = read_at_most(rt.alloc(), rt.reader(), TEXT)?;
    match read_scenario(&text, &mut lent.work, &mut lent.record, &mut lent.lines) {
        ScenarioAnswer::Read { record_bytes, .. } => {
            io::writer(&rt).write_all(&lent.record[..record_bytes])
        }
        ScenarioAnswer::Refused(e) => eprintln!(rt; "refused {}", Numbers(e)),
    }
}
