// Blocks: the value that lines are, written as it is read. `levels` more collections may be opened. What a reader wrote before a refusal is
// kept. The lines and the writer are lent to each reader one by one: each clause names them apart, so a struct of both would only stand in
// front of each name. An indentation and the levels go side by side too: what one reader hands on, the next changes by one of them. So do
// the lines and the place of the first that is left: a struct of both would be made anew for each call, since a reader answers a place and
// the next goes on there, and half of the readers ask for a line at that place, half of them not.
#![tactic(auto)]

ghost use Rattle.std.specs.Prelude.{◌≡◌, ◌+◌, ◌≤◌, ◌<◌, suc, length, drop};
ghost use Rattle.std.proofs.Math.Option.{some};
ghost use Rattle.writer.specs.Writing.{cap_of};
ghost use Rattle.utf8.specs.White.{trim, trim_start};
ghost use Rattle.lines.specs.Table.{line_at};
ghost use Rattle.scalar.specs.Code.{found_of};
ghost use Rattle.literal.specs.Contract.{ReadsLines, ReadsPart};
ghost use Rattle.block.specs.Block as definition;
ghost use Rattle.block.specs.Block.{starts_complex, line_value, block_key, value_behind, entry_at, entries_of, block_map, inline_map};
ghost use Rattle.block.specs.Block.{item_behind, block_seq, within};
ghost use Rattle.block.specs.Contract.{opening_of, behind_of, key_here, dash_here, column_at, text_at, AgreesKey, ReadsEntry};
ghost use Rattle.block.specs.Contract.{ReadsEntries, ReadsOnce};

use entries::{has_key, repeats};
use flow::{flow, levels_inside};
use item::{Found, HEADER, Kind};
use lines::{Lines, dashed};
use literal::{Chomping, literal};
use refusal::Refusal;
use scalar::{Role, key_end};
use utf8::{trim_start, trimmed};
use writer::Writer;

// An entry: the first line that is left, and where the key's item ends.
#[derive(Clone, Copy)]
struct EntryRead {
    next: usize,
    key_end: usize,
}

// Where an entry begins: its line, its place in that line's text, and how far behind that its colon stands. That they lie in the lines is
// said by those who take it, since the lines go beside it: in a struct, functions that call each other would have to lend them anew (`&*lines`)
// to make one and to hand them on, and each clause would have `at.entry.lines.now` for `lines.now`.
#[derive(Clone, Copy)]
struct EntryStart {
    line: usize,
    from: usize,
    split: usize,
}

// What a line begins with: a dash, a key that ends at a place, or neither, so that it is one flow value.
#[derive(Clone, Copy)]
enum Opening {
    Dash,
    Key(usize),
    Flow,
}

// What stands behind a key's colon.
#[derive(Clone, Copy)]
enum Behind {
    Nothing,
    Literal(Chomping),
    Value,
}

#[tactic(auto, using(crate::proofs::Parts::openings))]
fn opens_with(line: &[u8]) -> Opening
    requires { length line.now ≤ 65535 }
    ensures { result ≡ opening_of line.now }
{
    if dashed(line) {
        return Opening::Dash;
    }
    match key_end(line) {
        Found::At(split) => Opening::Key(split),
        Found::Nothing => Opening::Flow,
    }
}

// Whether a key starts with `?`, `&` or `*`.
#[tactic(auto, unfolding(crate::specs::Block::starts_complex))]
fn starts_complex(key: &[u8]) -> bool
    ensures { result ≡ starts_complex key.now }
{
    matches!(key, [b'?' | b'&' | b'*', ..])
}

// What the text behind a key's colon is, trimmed.
#[tactic(auto, using(crate::proofs::Parts::behind_long), unfolding(crate::specs::Contract::behind_of, refusal::specs::Base::empty, refusal::specs::Base::same, refusal::specs::Base::bytes))]
fn behind_colon(t: &[u8]) -> Behind
    ensures { result ≡ behind_of t.now }
{
    match t {
        b"" => Behind::Nothing,
        b"|" => Behind::Literal(Chomping::Clip),
        b"|-" => Behind::Literal(Chomping::Strip),
        _ => Behind::Value,
    }
}

// A part of a line that is one value; the lines from `i` on are left.
#[tactic(auto, using(crate::proofs::Parts::line_values))]
fn line_value(
    s: &[u8],
    i: usize,
    levels: usize,
    number: u32,
    writer: &mut Writer<'_>,
) -> Result<usize, Refusal>
    ensures { ReadsPart (line_value (cap_of writer.old) levels number writer.old.used s.now) i writer.old writer.new result }
{
    flow(s, levels, Role::AsValue, number, writer)?;
    Ok(i)
}

// The key before a colon.
#[tactic(auto, using(crate::proofs::Parts::block_keys))]
fn block_key(s: &[u8], levels: usize, number: u32, writer: &mut Writer<'_>) -> Result<(), Refusal>
    ensures { AgreesKey (block_key (cap_of writer.old) levels number writer.old.used (trim s.now)) writer.old writer.new result }
{
    let key = trimmed(s);
    if key.is_empty() {
        return Err(Refusal::EmptyKey { line: number });
    }
    if starts_complex(key) {
        return Err(Refusal::ComplexKey { line: number });
    }
    let named = flow(key, levels, Role::AsKey, number, writer)?;
    if named {
        Ok(())
    } else {
        Err(Refusal::KeyNotScalar { line: number })
    }
}

// A value on a deeper line than `indent`; without one it is null.
#[tactic(auto, using(crate::proofs::Turns::children))]
#[cycle(block)]
fn child(
    lines: &Lines<'_, '_>,
    i: usize,
    indent: usize,
    levels: usize,
    writer: &mut Writer<'_>,
) -> Result<usize, Refusal>
    requires { i ≤ length lines.now }
    ensures { ReadsLines (definition.child (cap_of writer.old) (within (cap_of writer.old) levels) indent writer.old.used)
        lines.now i writer.old writer.new result }
{
    if i < lines.len() && lines.indent(i) > indent {
        return block(lines, i, levels, writer);
    }
    writer.null()?;
    Ok(i)
}

// The value of the entry that begins at `at`.
#[tactic(auto, using(crate::proofs::Turns::entry_values))]
#[cycle(block)]
fn entry_value(
    lines: &Lines<'_, '_>,
    at: EntryStart,
    levels: usize,
    writer: &mut Writer<'_>,
) -> Result<usize, Refusal>
    requires line { at.line < length lines.now }
    requires colon { at.from + at.split < length (line_at lines.now at.line).text }
    ensures { ReadsLines (value_behind (cap_of writer.old) (within (cap_of writer.old) levels) (line_at lines.now at.line).number
        (column_at (line_at lines.now at.line) at.from) writer.old.used (trim (drop (suc at.split) (text_at (line_at lines.now at.line) at.from))))
        lines.now (at.line + 1) writer.old writer.new result }
{
    let text = lines.text(at.line);
    let line = &text[at.from..];
    let end = line.len();
    let behind = trimmed(&line[at.split + 1..end]);
    let indent = lines.indent(at.line) + at.from;
    match behind_colon(behind) {
        Behind::Nothing => child(lines, at.line + 1, indent, levels, writer),
        Behind::Literal(chomping) => literal(lines, at.line + 1, indent, chomping, writer),
        Behind::Value => line_value(behind, at.line + 1, levels, lines.number(at.line), writer),
    }
}

// That entry: its key, then its value.
#[tactic(auto, using(crate::proofs::Turns::entry_reads))]
#[cycle(block)]
fn entry(
    lines: &Lines<'_, '_>,
    at: EntryStart,
    levels: usize,
    writer: &mut Writer<'_>,
) -> Result<EntryRead, Refusal>
    requires line { at.line < length lines.now }
    requires colon { at.from + at.split < length (line_at lines.now at.line).text }
    ensures { ReadsEntry (entry_at (cap_of writer.old) (within (cap_of writer.old) levels) (line_at lines.now at.line).number
        (column_at (line_at lines.now at.line) at.from) (text_at (line_at lines.now at.line) at.from) at.split writer.old.used)
        lines.now (at.line + 1) writer.old writer.new result }
{
    let text = lines.text(at.line);
    let key = &text[at.from..at.from + at.split];
    block_key(key, levels, lines.number(at.line), writer)?;
    let key_end = writer.used();
    let next = entry_value(lines, at, levels, writer)?;
    Ok(EntryRead { next, key_end })
}

// Whether line `i` goes on a mapping at this indentation, and where its key ends.
#[tactic(auto, using(crate::proofs::Parts::keys))]
fn key_at(lines: &Lines<'_, '_>, i: usize, indent: usize) -> Found
    requires { i ≤ length lines.now }
    ensures { result ≡ found_of (key_here indent (drop i lines.now)) }
{
    if i == lines.len() || lines.indent(i) != indent {
        return Found::Nothing;
    }
    key_end(lines.text(i))
}

// The entries of a mapping from line `first` on, whose keys are not compared: the lines at this indentation that have a key end.
// `found` is where the first one's key ends. Where an entry is refused, the writer is cut back to those before it. A `loop` that is broken
// out of by `let .. else`, as a rule of the project has it, and a `while` below and in `sequence`: each goes on at the line where an entry or an item ends.
#[tactic(auto, using(crate::proofs::Turns::all_turns))]
#[cycle(block)]
fn all_entries(
    lines: &Lines<'_, '_>,
    first: usize,
    found: Found,
    indent: usize,
    levels: usize,
    writer: &mut Writer<'_>,
) -> Result<usize, Refusal>
    requires line { first ≤ length lines.now }
    requires key { found ≡ found_of (key_here indent (drop first lines.now)) }
    ensures { ReadsEntries (entries_of (cap_of writer.old) (within (cap_of writer.old) levels) indent writer.old.used)
        lines.now first writer.old writer.new result }
{
    let mut i = first;
    let mut key = found;
    loop {
        let Found::At(split) = key else {
            break;
        };
        let before = writer.used();
        let at = EntryStart {
            line: i,
            from: 0,
            split,
        };
        match entry(lines, at, levels, writer) {
            Err(refusal) => {
                writer.truncate(before);
                return Err(refusal);
            }
            Ok(read) => {
                i = read.next;
                key = key_at(lines, i, indent);
            }
        }
    }
    Ok(i)
}

// The same, where each key is compared with those before it, so that the first line whose key stands twice is named. Not one walk with a
// switch: what the two promise of a refusal differs, and with it what they do in each turn.
#[tactic(auto, using(crate::proofs::Turns::once_turns))]
#[cycle(block)]
fn entries_once(
    lines: &Lines<'_, '_>,
    first: usize,
    indent: usize,
    levels: usize,
    writer: &mut Writer<'_>,
) -> Result<usize, Refusal>
    requires { first ≤ length lines.now }
    ensures { ReadsOnce (entries_of (cap_of writer.old) (within (cap_of writer.old) levels) indent writer.old.used)
        lines.now first writer.old writer.new result }
{
    let start = writer.used();
    let mut i = first;
    while let Found::At(split) = key_at(lines, i, indent) {
        let before = writer.used();
        let at = EntryStart {
            line: i,
            from: 0,
            split,
        };
        let read = entry(lines, at, levels, writer)?;
        let written = writer.written();
        let earlier = written.part(start, before);
        if has_key(earlier, &written.bytes[before + HEADER..read.key_end]) {
            let line = lines.number(i);
            return Err(Refusal::KeyTwice { line });
        }
        i = read.next;
    }
    Ok(i)
}

// Those entries. Their keys are judged at once, behind the last entry that was read. Only where one stands twice are they read again;
// at most 2,048 lines have a key, so that the square of comparing each is bounded.
#[cycle(block)]
fn entries(
    lines: &Lines<'_, '_>,
    first: usize,
    found: Found,
    indent: usize,
    levels: usize,
    writer: &mut Writer<'_>,
) -> Result<usize, Refusal>
    requires line { first ≤ length lines.now }
    requires key { found ≡ found_of (key_here indent (drop first lines.now)) }
    ensures { ReadsLines (entries_of (cap_of writer.old) (within (cap_of writer.old) levels) indent writer.old.used)
        lines.now first writer.old writer.new result }
{
    let start = writer.used();
    let end = all_entries(lines, first, found, indent, levels, writer);
    if repeats(writer.written().part(start, writer.used())) {
        writer.truncate(start);
        return entries_once(lines, first, indent, levels, writer);
    }
    end
}

// A mapping that begins with line `i`, whose key ends at `split`.
#[tactic(auto, using(crate::proofs::Turns::mappings))]
#[cycle(block)]
fn mapping(
    lines: &Lines<'_, '_>,
    i: usize,
    split: usize,
    indent: usize,
    levels: usize,
    writer: &mut Writer<'_>,
) -> Result<usize, Refusal>
    requires line { i < length lines.now }
    requires key { key_here indent (drop i lines.now) ≡ some split }
    ensures { ReadsLines (block_map (cap_of writer.old) (within (cap_of writer.old) levels) indent writer.old.used)
        lines.now i writer.old writer.new result }
{
    let header = writer.begin()?;
    let next = entries(lines, i, Found::At(split), indent, levels, writer)?;
    writer.end(header, Kind::Map);
    Ok(next)
}

// A mapping whose first entry stands behind a dash.
#[tactic(auto, using(crate::proofs::Turns::inlines))]
#[cycle(block)]
fn inline_mapping(
    lines: &Lines<'_, '_>,
    at: EntryStart,
    levels: usize,
    writer: &mut Writer<'_>,
) -> Result<usize, Refusal>
    requires line { at.line < length lines.now }
    requires colon { at.from + at.split < length (line_at lines.now at.line).text }
    requires short { at.from ≤ 65535 }
    ensures { ReadsLines (inline_map (cap_of writer.old) (within (cap_of writer.old) levels) (line_at lines.now at.line).number
        (column_at (line_at lines.now at.line) at.from) (text_at (line_at lines.now at.line) at.from) at.split writer.old.used)
        lines.now (at.line + 1) writer.old writer.new result }
{
    let header = writer.begin()?;
    let indent = lines.indent(at.line) + at.from;
    let first = entry(lines, at, levels, writer)?;
    let later = writer.used();
    let found = key_at(lines, first.next, indent);
    let next = entries(lines, first.next, found, indent, levels, writer)?;
    let written = writer.written();
    let behind = written.part(later, writer.used());
    if has_key(behind, &written.bytes[header + 2 * HEADER..first.key_end]) {
        let line = lines.number(at.line);
        return Err(Refusal::KeyTwice { line });
    }
    writer.end(header, Kind::Map);
    Ok(next)
}

// The item behind the dash of line `i`.
#[tactic(auto, using(crate::proofs::Turns::items))]
#[cycle(block)]
fn item(
    lines: &Lines<'_, '_>,
    i: usize,
    levels: usize,
    writer: &mut Writer<'_>,
) -> Result<usize, Refusal>
    requires line { i < length lines.now }
    requires dash { 0 < length (line_at lines.now i).text }
    ensures { ReadsLines (item_behind (cap_of writer.old) (within (cap_of writer.old) levels) (line_at lines.now i) writer.old.used
        (trim_start (drop 1 (line_at lines.now i).text))) lines.now (i + 1) writer.old writer.new result }
{
    let line = lines.text(i);
    let end = line.len();
    let from = trim_start(line, 1, end);
    if from == end {
        return child(lines, i + 1, lines.indent(i), levels, writer);
    }
    let Found::At(split) = key_end(&line[from..end]) else {
        return line_value(&line[from..end], i + 1, levels, lines.number(i), writer);
    };
    let inside = levels_inside(levels, lines.number(i))?;
    let at = EntryStart {
        line: i,
        from,
        split,
    };
    inline_mapping(lines, at, inside, writer)
}

// Whether line `i` goes on a sequence at this indentation.
#[tactic(auto, using(crate::proofs::Parts::dashes))]
fn goes_on(lines: &Lines<'_, '_>, i: usize, indent: usize) -> bool
    requires { i ≤ length lines.now }
    ensures { result ≡ dash_here indent (drop i lines.now) }
{
    i < lines.len() && lines.dash_at(i, indent)
}

// A sequence that begins with line `first`.
#[tactic(auto, using(crate::proofs::Turns::sequences))]
#[cycle(block)]
fn sequence(
    lines: &Lines<'_, '_>,
    first: usize,
    indent: usize,
    levels: usize,
    writer: &mut Writer<'_>,
) -> Result<usize, Refusal>
    requires { first ≤ length lines.now }
    ensures { ReadsLines (block_seq (cap_of writer.old) (within (cap_of writer.old) levels) indent writer.old.used)
        lines.now first writer.old writer.new result }
{
    let header = writer.begin()?;
    let mut i = first;
    while goes_on(lines, i, indent) {
        i = item(lines, i, levels, writer)?;
    }
    writer.end(header, Kind::Seq);
    Ok(i)
}

/// The value that begins with line `i`: a sequence, a mapping or one flow value. Where no line is left it is null. The first line behind
/// it is given.
#[tactic(auto, using(crate::proofs::Turns::blocks))]
#[cycle(block)]
pub fn block(
    lines: &Lines<'_, '_>,
    i: usize,
    levels: usize,
    writer: &mut Writer<'_>,
) -> Result<usize, Refusal>
    requires { i ≤ length lines.now }
    ensures { ReadsLines (definition.block (cap_of writer.old) levels writer.old.used) lines.now i writer.old writer.new result }
{
    if i == lines.len() {
        writer.null()?;
        return Ok(i);
    }
    let text = lines.text(i);
    let indent = lines.indent(i);
    let number = lines.number(i);
    match opens_with(text) {
        Opening::Flow => line_value(text, i + 1, levels, number, writer),
        Opening::Dash => {
            let inside = levels_inside(levels, number)?;
            sequence(lines, i, indent, inside, writer)
        }
        Opening::Key(split) => {
            let inside = levels_inside(levels, number)?;
            mapping(lines, i, split, indent, inside, writer)
        }
    }
}
