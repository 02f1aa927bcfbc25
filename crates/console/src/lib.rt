// What the programs share: a refusal in print, input up to a limit, and what is lent to a reading.
#![tactic(auto)]

ghost use Rattle.std.specs.Prelude.{◌≡◌, take, replicate, IfOk, IfSome};

use refusal::{Refusal, Told};
use std::alloc::{AllocError, Global};
use std::io::Read;
use std::{fmt, io};

/// How much of an input is a text: a byte more than a text may have, so that a longer one is refused.
pub const TEXT: u64 = 65536;
/// What drumcheck, drumread and drumrecord lend: bytes for the tree, and as many for the record.
pub const ROOM: usize = 65536;
/// What they lend for the lines of the steps.
pub const PLACES: usize = 512;

/// Prints a refusal as `NUMBER LINE STEP`.
#[derive(Clone, Copy, Debug, PartialEq, Eq)]
pub struct Numbers(pub Refusal);

impl fmt::Display for Numbers {
    fn fmt<W: fmt::Write>(&self, f: &mut fmt::Formatter<W>) -> fmt::Result {
        let Told { number, line, step } = self.0.told();
        write!(f, "{number} {line} {step}")
    }
}

/// What a reader has left, and no more than so many bytes of it.
pub fn read_at_most<R: Read + Drop>(alloc: Global, reader: R, most: u64) -> io::Result<Vec<u8>>
    ensures { IfOk result (λ text. IfSome (R.remaining reader) (λ left. text.items ≡ take most left)) }
{
    let mut text = Vec::new(alloc);
    reader.take(most).read_to_end(&mut text)?;
    Ok(text)
}

/// What is lent to a reading: the work, the record and the lines of its steps.
#[derive(Drop)]
pub struct Lent {
    pub work: Vec<u8>,
    pub record: Vec<u8>,
    pub lines: Vec<u32>,
}

impl Lent {
    /// So many bytes each for work and record, and so many lines, all 0.
    pub fn new(alloc: Global, bytes: usize, places: usize) -> Result<Lent, AllocError>
        ensures work { IfOk result (λ lent. lent.work.items ≡ replicate bytes 0) }
        ensures bytes { IfOk result (λ lent. lent.«record».items ≡ replicate bytes 0) }
        ensures lines { IfOk result (λ lent. lent.lines.items ≡ replicate places 0) }
    {
        Ok(Lent {
            work: vec![in alloc; 0u8; bytes]?,
            record: vec![in alloc; 0u8; bytes]?,
            lines: vec![in alloc; 0u32; places]?,
        })
    }
}
