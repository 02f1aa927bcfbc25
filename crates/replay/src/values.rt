// Where the key of a line ends, and the line's value.
use crate::print::print_written;
use console::Numbers;
use item::Found;
use refusal::Refusal;
use scalar::Role;
use std::io;
use std::io::Write;
use tree::LONGEST;
use writer::Writer;

fn print_key(out: &mut impl Write, found: Found) -> io::Result<()> {
    match found {
        Found::At(place) => write!(out, "{place} "),
        Found::Nothing => write!(out, "none "),
    }
}

// How many bytes the value is written as.
fn read_value(line: &[u8], written: &mut [u8; LONGEST]) -> Result<usize, Refusal> {
    let mut writer = Writer::new(written);
    flow::flow(line, 32, Role::AsValue, 1, &mut writer)?;
    Ok(writer.used())
}

pub(crate) fn print_line(out: &mut impl Write, line: &[u8]) -> io::Result<()> {
    if line.len() > LONGEST {
        return Ok(());
    }
    let mut written = [7u8; LONGEST];
    print_key(out, scalar::key_end(line))?;
    match read_value(line, &mut written) {
        Ok(used) => {
            write!(out, "ok")?;
            print_written(out, &written, used)
        }
        Err(e) => write!(out, "refused {}", Numbers(e)),
    }
}
