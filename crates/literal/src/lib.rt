// Literals, written as they are read.
#![tactic(auto)]

ghost use Rattle.std.specs.Prelude.{◌≡◌, [], ◌∷◌, ◌++◌, ◌+◌, ◌-◌, ◌≤◌, ◌<◌, length, take, replicate, if◌then◌else◌};
ghost use Rattle.refusal.specs.Base.{ch};
ghost use Rattle.writer.specs.Writing.{cap_of, Appends};
ghost use Rattle.lines.specs.Table.{line_at};
ghost use Rattle.lines.specs.Ready.{AreLines};
ghost use Rattle.literal.specs.Literal as definition;
ghost use Rattle.literal.specs.Contract.{strips, ReadsLines};
ghost use Rattle.literal.specs.Walk.{extra_spaces, body_from, Extent, whole};

use item::Kind;
use lines::Lines;
use refusal::Refusal;
use writer::Writer;

/// What becomes of the newlines at a literal's end: `|` leaves one there, and `|-` none.
#[derive(Clone, Copy, Debug, PartialEq, Eq)]
pub enum Chomping {
    Clip,
    Strip,
}

// The body of a literal: the first line behind it, and how many bytes its lines give.
#[derive(Clone, Copy)]
struct Body {
    next: usize,
    len: usize,
}

// The spaces before a text of `size` bytes that stands `deeper` than the literal's first line. A blank line has none, whatever
// stands behind it.
fn extra_spaces(size: usize, deeper: usize) -> usize
    ensures value { result ≡ extra_spaces size deeper }
    ensures most { result ≤ deeper }
{
    if size == 0 {
        return 0;
    }
    deeper
}

// The lines from `first` on that are indented by at least `indent`. By their numbers, here and in `put_lines`: lines are asked for by number, and
// that of the first behind them is what is answered.
#[tactic(auto, using(crate::proofs::Laws::counts))]
fn extent(lines: &Lines<'_, '_>, first: usize, indent: usize) -> Body
    requires { first ≤ length lines.now }
    ensures { Extent lines.now first indent result }
{
    let count = lines.len();
    let mut len = 0;
    for i in first..count {
        let deep = lines.indent(i);
        if deep < indent {
            return Body { next: i, len };
        }
        let size = lines.text(i).len();
        len += extra_spaces(size, deep - indent) + size + 1;
    }
    Body { next: count, len }
}

// A line of a literal, without its newline if that would stand at `to`.
#[tactic(auto, using(crate::proofs::Laws::line_puts))]
fn put_line(line: &[u8], spaces: usize, to: usize, writer: &mut Writer<'_>)
    requires line { writer.old.used + spaces + length line.now ≤ to }
    requires room { to ≤ cap_of writer.old }
    ensures { Appends writer.old writer.new
        (take (to - writer.old.used) (replicate spaces (ch " ") ++ line.now ++ (ch "\n" ∷ []))) }
{
    writer.fill(b' ', spaces);
    writer.put(line);
    if writer.used() < to {
        writer.push(b'\n');
    }
}

// The lines that `extent` counts, up to `to`.
#[tactic(auto, using(crate::proofs::Laws::lines_puts))]
fn put_lines(lines: &Lines<'_, '_>, first: usize, indent: usize, to: usize, writer: &mut Writer<'_>)
    requires first { first ≤ length lines.now }
    requires room { to ≤ cap_of writer.old }
    requires most { to ≤ writer.old.used + length (body_from lines.now indent first) }
    requires least { writer.old.used + length (body_from lines.now indent first) ≤ to + 1 }
    ensures { Appends writer.old writer.new (take (to - writer.old.used) (body_from lines.now indent first)) }
{
    for i in first..lines.len() {
        let deep = lines.indent(i);
        if deep < indent {
            break;
        }
        let line = lines.text(i);
        put_line(line, extra_spaces(line.len(), deep - indent), to, writer);
    }
}

// How many of a literal's bytes are kept: its last line is never blank, so one newline is all that there is to drop.
fn kept_len(len: usize, chomping: Chomping) -> usize
    requires { 1 ≤ len }
    ensures { result ≡ (if strips chomping then len - 1 else len) }
{
    match chomping {
        Chomping::Clip => len,
        Chomping::Strip => len - 1,
    }
}

// The literal of which line `i` is the first, and the first line behind it.
#[tactic(auto, using(crate::proofs::Whole::wholes))]
fn put_literal(
    lines: &Lines<'_, '_>,
    i: usize,
    chomping: Chomping,
    writer: &mut Writer<'_>,
) -> Result<usize, Refusal>
    requires lines { AreLines lines.now }
    requires line { i < length lines.now }
    ensures { ReadsLines (λ ls. whole (cap_of writer.old) (strips chomping) writer.old.used (definition.literal_lines (line_at lines.now i).indent ls))
        lines.now i writer.old writer.new result }
{
    let indent = lines.indent(i);
    let body = extent(lines, i, indent);
    let len = kept_len(body.len, chomping);
    writer.header(Kind::Str, len)?;
    let to = writer.used() + len;
    put_lines(lines, i, indent, to, writer);
    Ok(body.next)
}

/// The literal of a key that is indented by `under`, from line `i` on, and the first line behind it.
#[tactic(auto, using(crate::proofs::Whole::literals))]
pub fn literal(
    lines: &Lines<'_, '_>,
    i: usize,
    under: usize,
    chomping: Chomping,
    writer: &mut Writer<'_>,
) -> Result<usize, Refusal>
    requires { i ≤ length lines.now }
    ensures { ReadsLines (definition.literal (cap_of writer.old) (strips chomping) under writer.old.used) lines.now i writer.old writer.new result }
{
    if i < lines.len() && lines.indent(i) > under {
        return put_literal(lines, i, chomping, writer);
    }
    writer.string(b"")?;
    Ok(i)
}
