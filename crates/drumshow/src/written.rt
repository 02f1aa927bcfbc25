// Items for people: what names them, and what is in them. Integers stand in decimal, texts in quotes with what a terminal would act on
// escaped.
use item::Kind;
use record::part;
use std::io::Write;
use std::{fmt, io};

const FIELDS: [&str; 8] = [
    "name",
    "description",
    "tags",
    "image",
    "setup",
    "defaults",
    "fail_on",
    "steps",
];

const DEFAULTS: [&str; 2] = ["timeout", "wall_budget"];

const PARTS: [&str; 7] = [
    "name",
    "id",
    "command",
    "value",
    "timeout",
    "continue_on_error",
    "expect",
];

// What names an item inside one of this kind that is no mapping, where so many stand before it.
#[derive(Clone, Copy)]
pub(crate) struct Name {
    pub(crate) holder: Kind,
    pub(crate) before: usize,
}

impl fmt::Display for Name {
    fn fmt<W: fmt::Write>(&self, f: &mut fmt::Formatter<W>) -> fmt::Result {
        let words: &[&str] = match self.holder {
            Kind::Steps => return write!(f, "step {}:", self.before.saturating_add(1)),
            Kind::Scenario => &FIELDS,
            Kind::Defaults => &DEFAULTS,
            Kind::Step => &PARTS,
            _ => return write!(f, "-"),
        };
        match words.get(self.before) {
            Some(word) => write!(f, "{word}:"),
            None => Ok(()),
        }
    }
}

// Whether a terminal or a reader would take a byte for something else.
fn is_escaped(byte: u8) -> bool {
    byte < b' ' || matches!(byte, b'\x7f' | b'"' | b'\\')
}

fn print_escape(out: &mut impl Write, byte: u8) -> io::Result<()> {
    match byte {
        b'\n' => out.write_all(b"\\n"),
        b'\t' => out.write_all(b"\\t"),
        b'\r' => out.write_all(b"\\r"),
        b'"' => out.write_all(b"\\\""),
        b'\\' => out.write_all(b"\\\\"),
        _ => write!(out, "\\x{byte:02x}"),
    }
}

// A text in quotes. What stands for itself is written in one piece, since a long text has few escapes.
pub(crate) fn print_quoted(out: &mut impl Write, text: &[u8]) -> io::Result<()> {
    let mut piece = 0;
    out.write_all(b"\"")?;
    for (place, &byte) in text.iter().enumerate() {
        if is_escaped(byte) {
            if piece < place {
                out.write_all(part(text, piece, place))?;
            }
            print_escape(out, byte)?;
            piece = place + 1;
        }
    }
    out.write_all(part(text, piece, text.len()))?;
    out.write_all(b"\"")
}

// The two's complement of eight bytes, the lowest first.
fn integer(content: &[u8]) -> i64 {
    content
        .first_chunk()
        .map_or(0, |bytes| i64::from_le_bytes(*bytes))
}

// What stands behind the name: a scalar, or of what holds items only whether it is empty.
pub(crate) fn print_content(out: &mut impl Write, kind: Kind, content: &[u8]) -> io::Result<()> {
    match kind {
        Kind::Null => write!(out, " null"),
        Kind::Bool => write!(out, " {}", matches!(content, [1, ..])),
        Kind::Int => write!(out, " {}", integer(content)),
        Kind::Str => {
            out.write_all(b" ")?;
            print_quoted(out, content)
        }
        _ if !content.is_empty() => Ok(()),
        Kind::Seq => write!(out, " []"),
        Kind::Map => write!(out, " {{}}"),
        _ => write!(out, " none"),
    }
}
