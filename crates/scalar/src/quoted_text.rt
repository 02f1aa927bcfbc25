// Quoted strings, read twice: where the string ends and how many bytes it has, and then its bytes, straight into their place. Where nothing
// is escaped they are copied.
ghost use Rattle.std.specs.Prelude.{◌≡◌, List, true, false, ℕ, ◌+◌, ◌≤◌, ◌<◌, ◌^◌, length, drop};
ghost use Rattle.refusal.specs.Base.{good};
ghost use Rattle.writer.specs.Writing.{cap_of, room_of, Appends};
ghost use Rattle.scalar.specs.declared.Role.{Role as Roles};
ghost use Rattle.scalar.specs.Read.{escape, double_quoted, single_quoted, string};
ghost use Rattle.scalar.specs.Contract.{quoted_of, ReadsValue};
ghost use Rattle.scalar.specs.Code.{escape_of, ReadsPiece, Spans};

use super::{Parsed, Quote};
use item::Kind;
use refusal::Refusal;
use writer::Writer;

// A byte of a string in quotes, and where what stands for it ends. A type of its own: as fields of `Piece` the byte and the case would share
// a word, and each byte of a string would be taken out of it.
#[derive(Clone, Copy)]
struct StringByte {
    byte: u8,
    next: usize,
}

// What stands at a place in quotes: a byte of the string, or the closing quote, which stands before `next`.
#[derive(Clone, Copy)]
enum Piece {
    Byte(StringByte),
    Shut { next: usize },
}

// A quoted string that is to be read: its quote, the part of a line that it stands in, where it begins there behind its opening quote, and
// the line's number.
#[derive(Clone, Copy)]
struct InQuotes<'a> {
    quote: Quote,
    s: &'a [u8],
    from: usize,
    line: u32,
    ghost inside: { from ≤ length s.now },
}

// Where a quoted string's closing quote ends, and how many bytes the string has.
#[derive(Clone, Copy)]
struct Span {
    next: usize,
    size: usize,
}

// What an escape stands for.
#[tactic(auto, unfolding(crate::specs::Read::escape))]
fn unescaped(c: u8) -> Option<u8>
    ensures { result ≡ escape_of (escape c) }
{
    match c {
        b'n' => Some(b'\n'),
        b't' => Some(b'\t'),
        b'r' => Some(b'\r'),
        b'0' => Some(0),
        b'"' | b'\\' | b'/' => Some(c),
        _ => None,
    }
}

// The pieces of each quote, by part, place and line: an `InQuotes` would say which quote it is once more. First the escape whose `\` stands
// before `i`.
#[tactic(auto, using(crate::proofs::QuoteLaws::escapes))]
fn escape_piece(s: &[u8], i: usize, line: u32) -> Result<Piece, Refusal>
    requires { i ≤ length s.now }
    ensures { (cap : ℕ) → ReadsPiece (double_quoted cap line true) (double_quoted cap line false) cap line s.now i result }
{
    let &escape = s.get(i).ok_or(Refusal::EscapeCut { line })?;
    let byte = unescaped(escape).ok_or(Refusal::UnknownEscape { line })?;
    Ok(Piece::Byte(StringByte { byte, next: i + 1 }))
}

#[tactic(auto, using(crate::proofs::QuoteLaws::doubles))]
fn double_piece(s: &[u8], i: usize, line: u32) -> Result<Piece, Refusal>
    requires { i ≤ length s.now }
    ensures { (cap : ℕ) → ReadsPiece (double_quoted cap line false) (double_quoted cap line false) cap line s.now i result }
{
    let &byte = s.get(i).ok_or(Refusal::QuoteOpen { line })?;
    let next = i + 1;
    match byte {
        b'"' => Ok(Piece::Shut { next }),
        b'\\' => escape_piece(s, next, line),
        _ => Ok(Piece::Byte(StringByte { byte, next })),
    }
}

// Two quotes are one of the string's.
#[tactic(auto, using(crate::proofs::QuoteLaws::singles))]
fn single_piece(s: &[u8], i: usize, line: u32) -> Result<Piece, Refusal>
    requires { i ≤ length s.now }
    ensures { (cap : ℕ) → ReadsPiece (single_quoted cap line false) (single_quoted cap line false) cap line s.now i result }
{
    let &byte = s.get(i).ok_or(Refusal::QuoteOpen { line })?;
    let next = i + 1;
    if byte != b'\'' {
        return Ok(Piece::Byte(StringByte { byte, next }));
    }
    match s.get(next) {
        Some(b'\'') => Ok(Piece::Byte(StringByte {
            byte,
            next: next + 1,
        })),
        _ => Ok(Piece::Shut { next }),
    }
}

fn piece_at(string: InQuotes<'_>, i: usize) -> Result<Piece, Refusal>
    requires { i ≤ length string.s.now }
    ensures { (cap : ℕ) → ReadsPiece (quoted_of string.entry.quote cap string.entry.line) (quoted_of string.entry.quote cap string.entry.line)
        cap string.entry.line string.entry.s.now i result }
{
    match string.quote {
        Quote::Single => single_piece(string.s, i, string.line),
        Quote::Double => double_piece(string.s, i, string.line),
    }
}

// A loop by places, since an escape and two single quotes take two places each.
fn span_of(string: InQuotes<'_>) -> Result<Span, Refusal>
    ensures { (cap : ℕ) → Spans (quoted_of string.entry.quote cap string.entry.line) string.entry.s.now string.entry.from result }
{
    let mut place = string.from;
    let mut size = 0;
    loop {
        match piece_at(string, place)? {
            Piece::Byte(piece) => {
                place = piece.next;
                size += 1;
            }
            Piece::Shut { next } => return Ok(Span { next, size }),
        }
    }
}

// The string's bytes, which fill `out`. A `match`: behind a `let .. else` it is not known that what is no byte is the closing quote, and the
// proof did not close.
fn unquote(string: InQuotes<'_>, out: &mut [u8])
    ensures { (cap : ℕ) (t rest : List ℕ) → quoted_of string.entry.quote cap string.entry.line (drop string.entry.from string.entry.s.now)
        ≡ good (t, rest) → length t ≡ length out.old → out.new ≡ t }
{
    let mut place = string.from;
    for slot in out.iter_mut() {
        match piece_at(string, place) {
            Ok(Piece::Byte(piece)) => {
                *slot = piece.byte;
                place = piece.next;
            }
            Ok(Piece::Shut { next: _ }) => return,
            Err(_) => return,
        }
    }
}

// The string's bytes, of which there are `size`, behind those that are used.
fn put_bytes(string: InQuotes<'_>, size: usize, writer: &mut Writer<'_>)
    requires { size ≤ room_of writer.old }
    ensures { (cap : ℕ) (t rest : List ℕ) → quoted_of string.entry.quote cap string.entry.line (drop string.entry.from string.entry.s.now)
        ≡ good (t, rest) → length t ≡ size → Appends writer.old writer.new t }
{
    let at = writer.used;
    unquote(string, &mut writer.out[at..at + size]);
    writer.used = at + size;
}

// The same bytes of a string whose closing quote stands before `next`: where each takes one place, none is escaped.
#[tactic(auto, using(crate::proofs::Copied::copied))]
fn put_content(string: InQuotes<'_>, span: Span, writer: &mut Writer<'_>)
    requires in_range { (string.from + span.size ≤ length string.s.now) × (span.next ≤ length string.s.now) }
    requires room { span.size ≤ room_of writer.old }
    ensures { (cap : ℕ) (t : List ℕ) → quoted_of string.entry.quote cap string.entry.line (drop string.entry.from string.entry.s.now)
        ≡ good (t, drop span.next string.entry.s.now) → length t ≡ span.size → Appends writer.old writer.new t }
{
    let end = string.from + span.size;
    if span.next == end + 1 {
        writer.put(&string.s[string.from..end]);
    } else {
        put_bytes(string, span.size, writer);
    }
}

/// The string behind an opening quote, which stands before `i`. It is the same in a key's place. A string that does not end is refused,
/// then an escape that is cut or not known, and then one for which there is no room.
// Not inlined: among the rest of a value its loops lack registers.
#[inline(never)]
pub fn quoted(
    quote: Quote,
    s: &[u8],
    i: usize,
    line: u32,
    writer: &mut Writer<'_>,
) -> Result<Parsed, Refusal>
    requires { i ≤ length s.now }
    ensures { (role : Roles) → ReadsValue role (string (cap_of writer.old) line role writer.old.used
        (quoted_of quote (cap_of writer.old) line (drop i s.now))) s.now writer.old writer.new result }
{
    let string = InQuotes {
        quote,
        s,
        from: i,
        line,
    };
    let span = span_of(string)?;
    writer.header(Kind::Str, span.size)?;
    put_content(string, span, writer);
    Ok(Parsed {
        next: span.next,
        key: true,
    })
}
