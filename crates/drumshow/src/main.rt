// Reads a record from standard input and prints it for people: a line for each item, named by its field, key or number, and what is in it
// below, further in. Of bytes that are no record it prints `refused 40 0 0`. It reads a byte more than a record may have.
#![tactic(auto)]

mod written;

use console::{Numbers, read_at_most};
use item::{HEADER, Item, Items, Kind, LIMIT};
use record::{RecordAnswer, check_record, part};
use std::io;
use std::io::{BufWriter, Write};
use written::{Name, print_content, print_quoted};

// More levels than a record has.
const DEEPEST: usize = 40;

fn print_indent(out: &mut impl Write, depth: usize) -> io::Result<()> {
    for _ in 0..depth {
        write!(out, "  ")?;
    }
    Ok(())
}

// What stands behind a name, and what is in it below, a level further in.
#[cycle(levels)]
fn print_value(out: &mut impl Write, bytes: &[u8], item: Item, depth: usize) -> io::Result<()> {
    let Ok(kind) = Kind::try_from(item.kind) else {
        return Ok(());
    };
    let content = part(bytes, item.from, item.to);
    print_content(out, kind, content)?;
    writeln!(out)?;
    match kind {
        Kind::Null | Kind::Bool | Kind::Int | Kind::Str => Ok(()),
        _ if depth >= DEEPEST => Ok(()),
        Kind::Map => print_entries(out, content, depth + 1),
        _ => print_items(out, kind, content, depth + 1),
    }
}

// Keys and values in turn; a key stands in the line of its value.
#[cycle(levels)]
fn print_entries(out: &mut impl Write, content: &[u8], depth: usize) -> io::Result<()> {
    let mut walk = Items::new(content);
    while let (Some(Ok(key)), Some(Ok(item))) = (walk.next(), walk.next()) {
        print_indent(out, depth)?;
        print_quoted(out, part(content, key.from, key.to))?;
        write!(out, ":")?;
        print_value(out, content, item, depth)?;
    }
    Ok(())
}

// The items that stand in one of this kind, which is no mapping.
#[cycle(levels)]
fn print_items(out: &mut impl Write, holder: Kind, content: &[u8], depth: usize) -> io::Result<()> {
    for (before, item) in Items::new(content).enumerate() {
        let Ok(item) = item else {
            return Ok(());
        };
        print_indent(out, depth)?;
        write!(out, "{}", Name { holder, before })?;
        print_value(out, content, item, depth)?;
    }
    Ok(())
}

fn main(rt: HostRuntime) -> io::Result<()> {
    let record = read_at_most(rt.alloc(), rt.reader(), LIMIT as u64 + 1)?;
    let mut out = BufWriter::new(rt.alloc(), io::writer(&rt))?;
    match check_record(&record) {
        RecordAnswer::Good { .. } => {
            let fields = part(&record, HEADER, record.len());
            print_items(&mut out, Kind::Scenario, fields, 0)?;
        }
        RecordAnswer::Refused(e) => writeln!(out, "refused {}", Numbers(e))?,
    }
    out.flush()
}
