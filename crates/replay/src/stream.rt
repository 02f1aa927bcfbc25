// What the stream has: numbers of 4 bytes, little-endian, and texts, each a number and so many bytes.
use std::io;
use std::io::{ErrorKind, Read};

// More than the texts of a section, and than the sections.
pub(crate) const MANY: usize = 100000000;

// The number at a place of a text, or 0 where fewer bytes are left.
pub(crate) fn number_at(text: &[u8], at: usize) -> u32 {
    text.get(at..)
        .and_then(|rest| rest.first_chunk())
        .map_or(0, |bytes| u32::from_le_bytes(*bytes))
}

// As many numbers as there are places, from a place of a text on. Where fewer bytes are left, the other places stay.
pub(crate) fn put_numbers(text: &[u8], from: usize, numbers: &mut [u32]) {
    if let Some(rest) = text.get(from..) {
        for (number, bytes) in numbers.iter_mut().zip(rest.chunks_exact(4)) {
            *number = number_at(bytes, 0);
        }
    }
}

// Whether there are as many bytes as places.
fn read_full(input: &mut impl Read, bytes: &mut [u8]) -> io::Result<bool> {
    match input.read_exact(bytes) {
        Ok(()) => Ok(true),
        Err(e) if e.kind() == ErrorKind::UnexpectedEof => Ok(false),
        Err(e) => Err(e),
    }
}

// The next number; where the stream ends the largest, which ends a section too.
pub(crate) fn next_number(input: &mut impl Read) -> io::Result<u32> {
    let mut bytes = [0u8; 4];
    if !read_full(input, &mut bytes)? {
        return Ok(u32::MAX);
    }
    Ok(u32::from_le_bytes(bytes))
}

// The next text, at the front of the buffer; none where the section or the stream ends, or where the text is too long for the buffer.
// The number that ends a section is longer than any buffer.
pub(crate) fn next_text<'a>(
    input: &mut impl Read,
    buffer: &'a mut [u8],
) -> io::Result<Option<&'a [u8]>> {
    let size = next_number(input)? as usize;
    let Some(text) = buffer.get_mut(..size) else {
        return Ok(None);
    };
    if !read_full(input, text)? {
        return Ok(None);
    }
    Ok(Some(text))
}

// Each text up to the end of the section.
pub(crate) fn each_text<F: FnMut(&[u8]) -> io::Result<()>>(
    input: &mut impl Read,
    buffer: &mut [u8],
    mut answer: F,
) -> io::Result<()>
    requires { F.IsAlwaysCallable answer }
{
    for _ in 0..MANY {
        let Some(text) = next_text(input, buffer)? else {
            return Ok(());
        };
        answer(text)?;
    }
    Ok(())
}
