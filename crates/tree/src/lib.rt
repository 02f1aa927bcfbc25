// The first job: the tree of a whole text.
#![tactic(auto)]

ghost use Rattle.std.specs.Prelude.{◌≡◌, ◌≤◌, ◌^◌, length};
ghost use Rattle.tree.specs.Tree as definition;
ghost use Rattle.tree.specs.Contract.{AgreesTree, AgreesRead};
ghost use Rattle.tree.specs.Tree.{answer_of, size_of, left};

use block::block;
use item::LIMIT;
use lines::{Lines, Rows, read_lines};
use refusal::Refusal;
use utf8::is_utf8;
use writer::Writer;

/// The most bytes that a text may have.
pub const LONGEST: usize = 65535;

// How many collections may be opened, one in the other.
const MOST_LEVELS: usize = 32;

/// What reading a tree answers: the bytes that it takes.
// An enum of its own, as each public job answers: what it tells has names, and the definitions name its cases.
#[derive(Clone, Copy, Debug, PartialEq, Eq)]
pub enum TreeAnswer {
    Read { bytes: usize },
    Refused(Refusal),
}

// The value of all lines. It is lent the output and no writer, which it would have to know to be empty.
#[tactic(auto, using(crate::proofs::Reading::lines_read))]
fn tree_of(lines: &Lines<'_, '_>, out: &mut [u8]) -> Result<usize, Refusal>
    requires { length out.old ≤ 2 ^ 20 }
    ensures { AgreesTree (definition.tree_of (length out.old) lines.now) out.old out.new result }
{
    let mut writer = Writer::new(out);
    let next = block(lines, 0, MOST_LEVELS, &mut writer)?;
    if next == lines.len() {
        return Ok(writer.used());
    }
    let line = lines.number(next);
    Err(Refusal::LinesLeft { line })
}

/// The tree of a text, written from the front of `out`: its bytes; and the rows of its lines, in place of what stood there. Of a refusal
/// anything is left in both.
#[tactic(auto, using(crate::proofs::Reading::texts_read))]
pub fn read_with(text: &[u8], rows: &mut Rows, out: &mut [u8]) -> Result<usize, Refusal>
    requires { length out.old ≤ 2 ^ 20 }
    ensures { AgreesRead (definition.tree (length out.old) text.now) text.now rows.new.items out.old out.new result }
{
    if text.len() > LONGEST {
        return Err(Refusal::TextTooLong);
    }
    if !is_utf8(text) {
        return Err(Refusal::NotUtf8);
    }
    read_lines(text, rows)?;
    tree_of(&Lines::new(text, rows), out)
}

/// The tree of a text, written from the front of `work`; a refusal leaves zeros in all of it.
#[tactic(auto, using(crate::proofs::Reading::told))]
pub fn read_tree(text: &[u8], work: &mut [u8]) -> TreeAnswer
    ensures answer { answer_of result ≡ size_of (definition.tree (length work.old) text.now) }
    ensures bytes { work.new ≡ left (definition.tree (length work.old) text.now)
        work.old }
{
    let mut rows = Rows::new();
    let counted = work.len().min(LIMIT);
    match read_with(text, &mut rows, &mut work[..counted]) {
        Ok(bytes) => TreeAnswer::Read { bytes },
        Err(e) => {
            work.fill(0);
            TreeAnswer::Refused(e)
        }
    }
}
