// The tree of a text, and the least work with which it is answered.
use crate::print::{mark_others, print_written};
use console::Numbers;
use refusal::Refusal;
use std::io;
use std::io::Write;
use tree::{TreeAnswer, read_tree};

pub(crate) fn print_tree(out: &mut impl Write, text: &[u8], work: &mut [u8]) -> io::Result<()> {
    work.fill(7);
    match read_tree(text, work) {
        TreeAnswer::Read { bytes } => {
            write!(out, "ok")?;
            print_written(out, work, bytes)
        }
        TreeAnswer::Refused(e) => {
            write!(out, "refused {}", Numbers(e))?;
            mark_others(out, work, 0, 0)
        }
    }
}

fn print_size(out: &mut impl Write, lent: usize, answer: TreeAnswer) -> io::Result<()> {
    match answer {
        TreeAnswer::Read { bytes } => write!(out, "{lent} ok {bytes}"),
        TreeAnswer::Refused(e) => write!(out, "{lent} refused {}", Numbers(e)),
    }
}

pub(crate) fn print_least(out: &mut impl Write, text: &[u8]) -> io::Result<()> {
    let mut work = [7u8; 1024];
    for size in 0..work.len() {
        let answer = read_tree(text, &mut work[..size]);
        if matches!(answer, TreeAnswer::Refused(_)) {
            mark_others(out, &work[..size], 0, 0)?;
        }
        if !matches!(answer, TreeAnswer::Refused(Refusal::WorkTooShort)) {
            return print_size(out, size, answer);
        }
    }
    Ok(())
}
