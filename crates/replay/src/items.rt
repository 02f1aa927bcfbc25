// Items at the ends of their ranges, and bytes that are read as items.
ghost use Rattle.std.specs.Prelude.{◌≤◌, length};

use crate::print::Hex;
use item::{Broken, Integer, Item};
use record::part;
use std::io;
use std::io::Write;

// What stands around the item must stay.
fn print_int(out: &mut impl Write, integer: Integer) -> io::Result<()> {
    let mut bytes = [7u8; 16];
    item::put_int(&mut bytes, 1, integer);
    writeln!(out, "{}", Hex(&bytes))
}

fn print_small(out: &mut impl Write, value: bool) -> io::Result<()> {
    let mut bytes = [7u8; 16];
    item::put_bool(&mut bytes, 1, value);
    item::put_null(&mut bytes, 9);
    writeln!(out, "{}", Hex(&bytes))
}

fn print_string(out: &mut impl Write, text: &[u8]) -> io::Result<()>
    requires { length text.now ≤ 9 }
{
    let mut bytes = [7u8; 16];
    item::put_string(&mut bytes, 1, text);
    writeln!(out, "{}", Hex(&bytes))
}

// Tries std's `fill` alone, which clears what is lent to a refused reading; only the stored output holds it.
fn print_zeros(out: &mut impl Write, from: usize, to: usize) -> io::Result<()>
    requires { (from ≤ to) × (to ≤ 4) }
{
    let mut bytes = [7u8; 4];
    bytes[from..to].fill(0);
    writeln!(out, "{}", Hex(&bytes))
}

fn print_integers(out: &mut impl Write) -> io::Result<()> {
    for (negative, magnitude) in [
        (false, 0),
        (true, 0),
        (true, 1),
        (false, 255),
        (true, 256),
        (false, 9223372036854775807),
        (true, 9223372036854775807),
        (true, 9223372036854775808),
    ] {
        let integer = Integer {
            negative,
            magnitude,
        };
        print_int(out, integer)?;
    }
    Ok(())
}

pub(crate) fn print_items(out: &mut impl Write) -> io::Result<()> {
    print_integers(out)?;
    print_small(out, true)?;
    print_small(out, false)?;
    print_string(out, b"")?;
    print_string(out, b"strike")?;
    print_string(out, b"123456789")?;
    print_zeros(out, 1, 3)?;
    print_zeros(out, 4, 4)
}

pub(crate) fn print_header(out: &mut impl Write, text: &[u8], at: usize) -> io::Result<()> {
    match item::header_at(text, at) {
        Ok(Item { kind, from, to }) => write!(out, "item {kind} {from} {to}"),
        Err(Broken::Cut) => write!(out, "cut"),
        Err(Broken::PastEnd) => write!(out, "past end"),
    }
}

// So many bytes are held against the rest.
pub(crate) fn print_same(out: &mut impl Write, text: &[u8], size: usize) -> io::Result<()> {
    if item::same_bytes(part(text, 0, size), part(text, size, text.len())) {
        write!(out, "same")
    } else {
        write!(out, "different")
    }
}
