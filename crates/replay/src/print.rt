// What the sections print with.
use record::part;
use refusal::Refusal;
use std::io::Write;
use std::{fmt, io};

// Bytes in hexadecimal.
#[derive(Clone, Copy)]
pub(crate) struct Hex<'a>(pub(crate) &'a [u8]);

impl fmt::Display for Hex<'_> {
    fn fmt<W: fmt::Write>(&self, f: &mut fmt::Formatter<W>) -> fmt::Result {
        for byte in self.0 {
            write!(f, "{byte:02x}")?;
        }
        Ok(())
    }
}

// Numbers, each behind a space.
#[derive(Clone, Copy)]
pub(crate) struct Spaced<'a>(pub(crate) &'a [u32]);

impl fmt::Display for Spaced<'_> {
    fn fmt<W: fmt::Write>(&self, f: &mut fmt::Formatter<W>) -> fmt::Result {
        for number in self.0 {
            write!(f, " {number}")?;
        }
        Ok(())
    }
}

// The first places of what was lent, or all.
pub(crate) fn front<T>(lent: &[T], count: usize) -> &[T] {
    lent.get(..count).unwrap_or(lent)
}

pub(crate) fn front_mut<T>(lent: &mut [T], count: usize) -> &mut [T] {
    let count = count.min(lent.len());
    &mut lent[..count]
}

// A mark, where something that was lent is not as it must be: the same value from this place on.
pub(crate) fn mark_others<T: Copy + PartialEq>(
    out: &mut impl Write,
    lent: &[T],
    from: usize,
    value: T,
) -> io::Result<()> {
    if lent
        .get(from..)
        .is_some_and(|rest| rest.iter().any(|&x| x != value))
    {
        write!(out, " other")?;
    }
    Ok(())
}

// So many bytes were written over sevens; those behind them must stay.
pub(crate) fn print_written(out: &mut impl Write, lent: &[u8], size: usize) -> io::Result<()> {
    write!(out, " {}", Hex(front(lent, size)))?;
    mark_others(out, lent, size, 7)
}

// Where a part begins, and how long it is.
pub(crate) fn print_part(
    out: &mut impl Write,
    bytes: &[u8],
    start: usize,
    end: usize,
) -> io::Result<()> {
    write!(out, " {start}+{}", part(bytes, start, end).len())
}

pub(crate) fn print_refused(out: &mut impl Write, e: Refusal) -> io::Result<()> {
    write!(out, " !{}", e.told().number)
}
