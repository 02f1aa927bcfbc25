// Reads a scenario text from standard input and prints what the reader answers: `ok` with the bytes of the record, the bytes of the
// tree and the number of steps, then a line for each step with its number, its line in the text and the bytes of its command's key; or
// `refused` with number, line and step. It reads a byte more than a text may have, so a longer input is refused too.
#![tactic(auto)]

use console::{Lent, Numbers, PLACES, ROOM, TEXT, read_at_most};
use item::{Item, Items};
use record::{part, steps_of};
use scenario::{ScenarioAnswer, read_scenario};
use std::io;

// The bytes of the key of a step: its third item, behind name and id.
fn key_bytes(record: &[u8], step: Item) -> usize {
    match Items::within(record, step.from, step.to).nth(2) {
        Some(Ok(key)) => part(record, key.from, key.to).len(),
        _ => 0,
    }
}

fn print_steps(rt: &impl Print, record: &[u8], lines: &[u32]) -> io::Result<()> {
    let steps = match steps_of(record) {
        Ok(steps) => steps,
        Err(e) => return println!(rt; "refused {}", Numbers(e)),
    };
    for (i, (step, line)) in steps.items.walk::<Item>().zip(lines).enumerate() {
        let Ok(step) = step else {
            return Ok(());
        };
        println!(rt; "step {} {line} {}", i + 1, key_bytes(record, step))?;
    }
    Ok(())
}

fn print_read(rt: &impl Print, record: &[u8], tree_bytes: usize, lines: &[u32]) -> io::Result<()> {
    println!(rt; "ok {} {tree_bytes} {}", record.len(), lines.len())?;
    print_steps(rt, record, lines)
}

fn main(rt: HostRuntime) -> io::Result<()> {
    let mut lent = Lent::new(rt.alloc(), ROOM, PLACES)?;
    let text = read_at_most(rt.alloc(), rt.reader(), TEXT)?;
    // Handed on one by one, here and in the other programs: a method of `Lent` would state again what `read_scenario` promises of each, and
    // have drumshow stand on the reader.
    match read_scenario(&text, &mut lent.work, &mut lent.record, &mut lent.lines) {
        ScenarioAnswer::Read {
            tree_bytes,
            record_bytes,
            steps,
            ..
        } => print_read(
            &rt,
            &lent.record[..record_bytes],
            tree_bytes,
            &lent.lines[..steps],
        ),
        ScenarioAnswer::Refused(e) => println!(rt; "refused {}", Numbers(e)),
    }
}
