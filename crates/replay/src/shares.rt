// What drums on one supply get in a beat.
use crate::print::Spaced;
use crate::stream::{number_at, put_numbers};
use console::Numbers;
use share::{ShareAnswer, share};
use std::io;
use std::io::Write;

// Of the numbers in front, the first is how many wishes there are.
pub(crate) fn print_shares(out: &mut impl Write, text: &[u8]) -> io::Result<()> {
    let mut wishes = [0u32; 64];
    let Some(wishes) = wishes.get_mut(..number_at(text, 0) as usize) else {
        return Ok(());
    };
    put_numbers(text, 8, wishes);
    let shares = share(wishes, number_at(text, 4));
    match shares.answer {
        ShareAnswer::Given => write!(out, "ok")?,
        ShareAnswer::Refused(e) => write!(out, "refused {}", Numbers(e))?,
    }
    write!(out, "{}", Spaced(&shares.strokes))
}
