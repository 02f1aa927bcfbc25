// The rows of a text's lines.
use crate::print::Hex;
use console::Numbers;
use lines::{Lines, Rows};
use std::io;
use std::io::Write;
use tree::LONGEST;

// By place, as whoever reads lines asks for them.
fn print_lines_of(out: &mut impl Write, lines: &Lines<'_, '_>) -> io::Result<()> {
    write!(out, "ok")?;
    for i in 0..lines.len() {
        let content = Hex(lines.text(i));
        write!(out, " {}:{}:{content}", lines.indent(i), lines.number(i))?;
    }
    Ok(())
}

pub(crate) fn print_lines(out: &mut impl Write, text: &[u8]) -> io::Result<()> {
    if text.len() > LONGEST {
        return Ok(());
    }
    let mut rows = Rows::new();
    match lines::read_lines(text, &mut rows) {
        Ok(()) => print_lines_of(out, &Lines::new(text, &rows)),
        Err(e) => write!(out, "refused {}", Numbers(e)),
    }
}
