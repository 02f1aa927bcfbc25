// What the check of a record and its lookups answer.
use crate::panels::print_panel;
use crate::print::{print_part, print_refused};
use crate::stream::next_text;
use console::Numbers;
use record::{Lookup, RecordAnswer, part};
use std::io;
use std::io::{Read, Write};

pub(crate) fn print_lookup(out: &mut impl Write, bytes: &[u8], found: Lookup) -> io::Result<()> {
    match found {
        Lookup::Found { start, end } => print_part(out, bytes, start, end),
        Lookup::Nothing => write!(out, " none"),
        Lookup::Refused(e) => print_refused(out, e),
    }
}

// The lookups of every field and step, and of those that there are not.
fn print_lookups(out: &mut impl Write, bytes: &[u8], steps: usize) -> io::Result<()> {
    for place in 0..10 {
        print_lookup(out, bytes, record::field(bytes, place))?;
    }
    for number in 0..steps.saturating_add(2) {
        print_lookup(out, bytes, record::step(bytes, number))?;
    }
    Ok(())
}

// Gives how many steps there are, if it is a record.
fn print_check(out: &mut impl Write, bytes: &[u8]) -> io::Result<Option<usize>> {
    match record::check_record(bytes) {
        RecordAnswer::Good { steps } => {
            write!(out, "good {steps}")?;
            Ok(Some(steps))
        }
        RecordAnswer::Refused(e) => {
            write!(out, "refused {}", Numbers(e))?;
            Ok(None)
        }
    }
}

pub(crate) fn print_record(out: &mut impl Write, bytes: &[u8]) -> io::Result<()> {
    if let Some(steps) = print_check(out, bytes)? {
        print_lookups(out, bytes, steps)?;
    } else {
        print_lookup(out, bytes, record::field(bytes, 1))?;
        print_lookup(out, bytes, record::field(bytes, 9))?;
        print_lookup(out, bytes, record::step(bytes, 0))?;
    }
    print_panel(out, bytes)
}

// The check alone, and what a panel shows.
pub(crate) fn print_checked(out: &mut impl Write, bytes: &[u8]) -> io::Result<()> {
    print_check(out, bytes)?;
    print_panel(out, bytes)
}

// A record with zeros in it, so that one at the limit need not be stored: a text at the front, and one from a place on. Of a place behind
// the buffer nothing is asked.
pub(crate) fn print_long(
    out: &mut impl Write,
    input: &mut impl Read,
    buffer: &mut [u8],
    from: usize,
    end: usize,
) -> io::Result<()> {
    if from > buffer.len() {
        return Ok(());
    }
    buffer.fill(0);
    next_text(input, buffer)?;
    next_text(input, &mut buffer[from..])?;
    print_record(out, part(buffer, 0, end))?;
    writeln!(out)
}

// Parts that are in order and inside, and parts that are not.
pub(crate) fn print_parts(out: &mut impl Write) -> io::Result<()> {
    for (start, end) in [(1, 3), (0, 6), (6, 6), (3, 1), (0, 7)] {
        out.write_all(part(b"strike", start, end))?;
        out.write_all(b".")?;
    }
    out.write_all(part(b"strike", usize::MAX, usize::MAX))?;
    writeln!(out)
}
