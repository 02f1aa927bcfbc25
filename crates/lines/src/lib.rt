// The significant lines of a text, as rows (document 01, section 1).
#![tactic(auto)]

ghost use Rattle.std.specs.Prelude.{◌≡◌, true, false, List, [], ◌∷◌, ◌++◌, ℕ, ◌+◌, ◌*◌, ◌≤◌, ◌<◌, ◌^◌, length, drop, get_or, IfOk, MatchResult};
ghost use Rattle.refusal.specs.Told.{refusal};
ghost use Rattle.utf8.specs.Part.{part};
ghost use Rattle.utf8.specs.White.{all_white};
ghost use Rattle.lines.specs.Lines.{split_lines, indent_of, tabbed, after_plain, place_after, starts_comment, strip_comment, significant, is_marker, opens_literal, significant_lines};
ghost use Rattle.lines.specs.Lines.{Event, entry, literal_of, most_lines};
ghost use Rattle.lines.specs.Dash as definition;
ghost use Rattle.lines.specs.Dash.{is_dash};
ghost use Rattle.lines.specs.Places.{Lacks, until_newline, LineEnds};
ghost use Rattle.lines.specs.Table.{row_of, line_of, LiesIn, table_lines, line_at};
ghost use Rattle.lines.specs.Filling.{Takes};
ghost use Rattle.lines.specs.Ready.{AreLines, Ready, Filled};

use arrayvec::ArrayVec;
use refusal::Refusal;
use std::marker::Model;
use utf8::{first_place, trim_end, trim_start};

/// The most lines that a text may have.
pub const MOST_LINES: usize = 2048;

/// Where a byte stands that is looked at for a comment: outside quotes, first or after a space, or elsewhere; in single or in
/// double quotes; behind a `\` in double quotes.
#[derive(Clone, Copy, Debug, PartialEq, Eq)]
pub enum Place {
    Fresh,
    Plain,
    Single,
    Double,
    Hidden,
}

/// Whether a literal is open, and under which indentation, in bytes.
// An enum of its own: the definition of lines, which is the rule itself, names its cases.
#[derive(Clone, Copy, Debug, PartialEq, Eq)]
pub enum Literal {
    Closed,
    Under(usize),
}

/// A line, as a row: its indentation, the start and the end of its text as places of the whole text, and its number from 1. No text
/// is so long that they do not fit.
#[derive(Clone, Copy, Debug, Default, PartialEq, Eq)]
pub struct Row {
    pub indent: u16,
    pub start: u16,
    pub end: u16,
    pub number: u16,
}

/// The rows of the lines of a text.
pub type Rows = ArrayVec<Row, MOST_LINES>;

// A line of the text, by its places: where it begins, where its indentation ends, where it ends, and where its newline stands, or else the text
// ends. A carriage return before the newline is no part of it. Its number is from 1.
#[derive(Clone, Copy)]
struct RawLine<'a> {
    text: &'a [u8],
    from: usize,
    start: usize,
    to: usize,
    newline: usize,
    number: usize,
    ghost short: { length text.now ≤ 65535 },
    ghost starts: { start ≡ from + indent_of (part text.now from to) },
    ghost low: { start ≤ to },
    ghost high: { to ≤ newline },
    ghost inside: { newline ≤ length text.now },
    ghost splits: { split_lines (drop from text.now) ≡ part text.now from to ∷ split_lines (drop (newline + 1) text.now) },
    ghost some: { 0 < number },
    ghost few: { number ≤ 65535 },
}

// What is known behind a line: which literal is open, and how many blank lines of it wait for one that is not.
#[derive(Clone, Copy)]
struct LineTaken {
    literal: Literal,
    waiting: usize,
}

// How a line is read: normally, or as a blank or a body line of the literal that is open under an indentation.
#[derive(Clone, Copy)]
enum Way {
    Normal,
    Blank(usize),
    Body(usize),
}

// Below, a part of the text goes by its places, and is no slice: rows name places of the whole text, and what trims and searches takes two
// places and answers one, so that of a slice each call would take 0 and its length.

// Whether one of eight bytes is `b`: with no branch between them, they are looked at together.
fn in_eight(text: &[u8], i: usize, b: u8) -> bool
    requires { i + 8 ≤ length text.now }
    ensures { result ≡ false → Lacks text.now i (i + 8) b }
{
    (text[i] == b)
        | (text[i + 1] == b)
        | (text[i + 2] == b)
        | (text[i + 3] == b)
        | (text[i + 4] == b)
        | (text[i + 5] == b)
        | (text[i + 6] == b)
        | (text[i + 7] == b)
}

// A place up to which a part has no `b`: eight bytes at a time, in nine instructions, where byte by byte takes five for each. A `while`: to count
// those of `chunks_exact` that pass by `take_while` took eight instructions more for each line.
fn skip_eights(text: &[u8], from: usize, to: usize, b: u8) -> usize
    requires { (from ≤ to) × (to ≤ length text.now) }
    ensures { (from ≤ result) × (result ≤ to) × Lacks text.now from result b }
{
    let mut i = from;
    while to - i >= 8 {
        if in_eight(text, i, b) {
            break;
        }
        i += 8;
    }
    i
}

// Where the first `b` of a part stands, or the part's end.
fn find_byte(text: &[u8], from: usize, to: usize, b: u8) -> usize
    requires { (from ≤ to) × (to ≤ length text.now) }
    ensures place { (from ≤ result) × (result ≤ to) × Lacks text.now from result b }
    ensures found { result < to → get_or text.now result 0 ≡ b }
{
    let start = skip_eights(text, from, to, b);
    first_place(start, to, |i| text[i] == b)
}

// The place of the newline that ends the line at `at`, or the text's end.
fn newline_at(text: &[u8], at: usize) -> usize
    requires { at ≤ length text.now }
    ensures { (result ≡ at + until_newline (drop at text.now)) × (result ≤ length text.now) }
{
    find_byte(text, at, text.len(), b'\n')
}

// Where that line ends without the carriage return before its newline. One `if` over all three took 5 instructions more for each line.
#[tactic(auto, using(crate::proofs::LineEnds::ends_last, crate::proofs::LineEnds::ends_empty, crate::proofs::LineEnds::ends_return, crate::proofs::LineEnds::ends_other))]
fn line_end(text: &[u8], at: usize, newline: usize) -> usize
    requires { (at < length text.now) × (newline ≡ at + until_newline (drop at text.now)) × (newline ≤ length text.now) }
    ensures { LineEnds text.now at newline result }
{
    if newline == text.len() || newline == at {
        return newline;
    }
    if text[newline - 1] == b'\r' {
        return newline - 1;
    }
    newline
}

// Where the indentation of a part ends.
fn indent_end(text: &[u8], from: usize, to: usize) -> usize
    requires { (from ≤ to) × (to ≤ length text.now) }
    ensures { (result ≡ from + indent_of (part text.now from to)) × (result ≤ to) }
{
    first_place(from, to, |i| text[i] != b' ')
}

// Whether a tab stands in the leading white space of a part.
fn tab_leads(text: &[u8], from: usize, to: usize) -> bool
    requires { (from ≤ to) × (to ≤ length text.now) }
    ensures { result ≡ tabbed (part text.now from to) }
{
    let end = trim_start(text, from, to);
    find_byte(text, from, end, b'\t') < end
}

#[tactic(auto, unfolding(crate::specs::Lines::after_plain))]
fn after_plain(b: u8) -> Place
    ensures { result ≡ after_plain b }
{
    match b {
        b' ' => Place::Fresh,
        b'\'' => Place::Single,
        b'"' => Place::Double,
        _ => Place::Plain,
    }
}

#[tactic(auto, unfolding(crate::specs::Lines::place_after))]
fn after_double(b: u8) -> Place
    ensures { result ≡ place_after Place.Double b }
{
    match b {
        b'"' => Place::Plain,
        b'\\' => Place::Hidden,
        _ => Place::Double,
    }
}

#[tactic(auto, unfolding(crate::specs::Lines::place_after))]
fn after_single(b: u8) -> Place
    ensures { result ≡ place_after Place.Single b }
{
    match b {
        b'\'' => Place::Plain,
        _ => Place::Single,
    }
}

// The place of the byte behind `b`.
#[tactic(auto, unfolding(crate::specs::Lines::place_after))]
fn place_after(place: Place, b: u8) -> Place
    ensures { result ≡ place_after place b }
{
    match place {
        Place::Fresh | Place::Plain => after_plain(b),
        Place::Single => after_single(b),
        Place::Double => after_double(b),
        Place::Hidden => Place::Double,
    }
}

#[tactic(auto, unfolding(crate::specs::Lines::starts_comment))]
fn starts_comment(place: Place, b: u8) -> bool
    ensures { result ≡ starts_comment place b }
{
    place == Place::Fresh && b == b'#'
}

// Where the comment of a part starts, or the part's end. Most parts have no `#`. A loop and no `first_place`, since what passes hangs on the
// bytes before it.
fn comment_at(text: &[u8], from: usize, to: usize) -> usize
    requires { (from ≤ to) × (to ≤ length text.now) }
    ensures { (result ≡ from + length (strip_comment (part text.now from to))) × (result ≤ to) }
{
    if find_byte(text, from, to, b'#') == to {
        return to;
    }
    let mut place = Place::Fresh;
    for i in from..to {
        let b = text[i];
        if starts_comment(place, b) {
            return i;
        }
        place = place_after(place, b);
    }
    to
}

// So few bytes are compared as one number, with no call of `memcmp`.
#[tactic(auto, using(crate::proofs::Laws::marker_length), unfolding(crate::specs::Lines::is_marker, refusal::specs::Base::same, refusal::specs::Base::bytes))]
fn is_marker(t: &[u8]) -> bool
    ensures { result ≡ is_marker t.now }
{
    matches!(t, b"---" | b"...")
}

// By the last byte first: most lines end in neither, and both ends compared whole took 25 instructions more for each line.
#[tactic(auto, using(crate::proofs::Laws::opens_bar, crate::proofs::Laws::opens_dash, crate::proofs::Laws::opens_none), unfolding(refusal::specs::Base::bytes))]
fn opens_literal(t: &[u8]) -> bool
    ensures { result ≡ opens_literal t.now }
{
    match t.last() {
        Some(b'|') => t.ends_with(b": |"),
        Some(b'-') => t.ends_with(b": |-"),
        _ => false,
    }
}

#[tactic(auto, unfolding(crate::specs::Lines::literal_of))]
fn literal_after(t: &[u8], indent: usize) -> Literal
    ensures { result ≡ literal_of t.now indent }
{
    if opens_literal(t) {
        Literal::Under(indent)
    } else {
        Literal::Closed
    }
}

// The row of one line more.
fn push(rows: &mut Rows, row: Row) -> Result<(), Refusal>
    ensures { (text : List ℕ) (es : List Event) → LiesIn text row
        → Takes text rows.old.items rows.new.items (entry (line_of text row) ∷ es) (λ _. es) result }
{
    rows.try_push(row).or(Err(Refusal::TooManyLines {
        line: u32::from(row.number),
    }))
}

impl<'a> RawLine<'a> {
    ghost use Rattle.lines.specs.Lines.{events_of, literal_after, blanks_before, body_of, scan};
    ghost use Rattle.lines.specs.Raw.{raw_text, way_of};

    // The line that starts at `from`.
    fn at(text: &'a [u8], from: usize, number: usize) -> RawLine<'a>
        requires place { from < length text.now }
        requires short { length text.now ≤ 65535 }
        requires numbered { (0 < number) × (number ≤ 65535) }
        ensures { (result.text.now ≡ text.now) × (result.from ≡ from) × (result.number ≡ number) }
    {
        let newline = newline_at(text, from);
        let to = line_end(text, from, newline);
        RawLine {
            text,
            from,
            start: indent_end(text, from, to),
            to,
            newline,
            number,
        }
    }

    fn indent(self) -> usize
        ensures value { result ≡ indent_of (raw_text self.entry) }
        ensures narrow { result ≤ 65535 }
    {
        self.start - self.from
    }

    // Whether it is white space alone.
    #[tactic(auto, using(crate::proofs::ScanLaws::raw_blank))]
    fn is_blank(self) -> bool
        ensures { result ≡ all_white (raw_text self.entry) }
    {
        trim_start(self.text, self.start, self.to) == self.to
    }

    // A tab in its leading white space is refused.
    #[tactic(auto, using(crate::proofs::ScanLaws::raw_tab))]
    fn untabbed(self) -> Result<(), Refusal>
        ensures { MatchResult result (λ _. tabbed (raw_text self.entry) ≡ false)
            (λ e. (tabbed (raw_text self.entry) ≡ true) × (e ≡ Refusal.TabInIndentation self.entry.number)) }
    {
        if tab_leads(self.text, self.start, self.to) {
            return Err(Refusal::TabInIndentation {
                line: self.number as u32,
            });
        }
        Ok(())
    }

    #[tactic(auto, unfolding(crate::specs::Raw::way_of))]
    fn way(self, literal: Literal) -> Way
        ensures { result ≡ way_of literal (raw_text self.entry) }
    {
        let Literal::Under(under) = literal else {
            return Way::Normal;
        };
        if self.is_blank() {
            return Way::Blank(under);
        }
        if self.indent() > under {
            return Way::Body(under);
        }
        Way::Normal
    }

    // Where what is left of it ends, if it is read normally.
    #[tactic(auto, using(crate::proofs::ScanLaws::raw_significant))]
    fn significant_end(self) -> usize
        ensures left { significant (raw_text self.entry) ≡ part self.entry.text.now self.entry.start result }
        ensures place { (self.entry.start ≤ result) × (result ≤ self.entry.to) }
    {
        let comment = comment_at(self.text, self.start, self.to);
        trim_end(self.text, self.start, comment)
    }

    // Its row, with its text up to `end`. No text is so long that a number is cut off.
    fn row(self, end: usize) -> Row
        requires { (self.start ≤ end) × (end ≤ self.to) }
        ensures is { result ≡ row_of (indent_of (raw_text self.entry)) self.entry.start end self.entry.number }
        ensures lies { LiesIn self.entry.text.now result }
    {
        Row {
            indent: self.indent() as u16,
            start: self.start as u16,
            end: end as u16,
            number: self.number as u16,
        }
    }

    // The blank lines that wait before it, with its indentation.
    fn push_blanks(self, rows: &mut Rows, waiting: usize) -> Result<(), Refusal>
        requires { waiting ≤ self.number }
        ensures { (es : List Event)
            → Takes self.entry.text.now rows.old.items rows.new.items (blanks_before waiting self.entry.number (indent_of (raw_text self.entry)) ++ es) (λ _. es) result }
    {
        for number in self.number - waiting..self.number {
            let row = Row {
                indent: self.indent() as u16,
                start: 0,
                end: 0,
                number: number as u16,
            };
            push(rows, row)?;
        }
        Ok(())
    }

    // Itself, read normally, and what is open behind it.
    fn push_normal(self, rows: &mut Rows) -> Result<Literal, Refusal>
        requires { tabbed (raw_text self) ≡ false }
        ensures taken { (es : List Event)
            → Takes self.entry.text.now rows.old.items rows.new.items (events_of self.entry.number (raw_text self.entry) ++ es) (λ _. es) result }
        ensures open { IfOk result (λ literal. literal ≡ literal_after (raw_text self.entry)) }
    {
        let end = self.significant_end();
        if end == self.start {
            return Ok(Literal::Closed);
        }
        let significant = &self.text[self.start..end];
        if is_marker(significant) {
            return Err(Refusal::DocumentMarker {
                line: self.number as u32,
            });
        }
        push(rows, self.row(end))?;
        Ok(literal_after(significant, self.indent()))
    }

    // Itself, as a body line of the literal that is open, behind the blank lines that wait.
    fn push_body(self, rows: &mut Rows, waiting: usize) -> Result<(), Refusal>
        requires untabbed { tabbed (raw_text self) ≡ false }
        requires waits { waiting < self.number }
        ensures { (es : List Event)
            → Takes self.entry.text.now rows.old.items rows.new.items (body_of waiting self.entry.number (raw_text self.entry) ++ es) (λ _. es) result }
    {
        self.push_blanks(rows, waiting)?;
        push(rows, self.row(trim_end(self.text, self.start, self.to)))
    }

    // A tab in its leading white space stops any line but a blank one of a literal. It is asked for here once: asked for in the two functions
    // above, where it would need no clause of theirs, it took 19 instructions more for each line, since what is called twice is not put in line.
    fn read_into(self, rows: &mut Rows, before: LineTaken) -> Result<LineTaken, Refusal>
        requires { before.waiting < self.number }
        ensures taken { (raws : List (List ℕ))
            → Takes self.entry.text.now rows.old.items rows.new.items (scan before.literal before.waiting self.entry.number (raw_text self.entry ∷ raws))
            (λ l. scan l.literal l.waiting (self.entry.number + 1) raws) result }
        ensures waits { IfOk result (λ l. l.waiting ≤ self.entry.number) }
    {
        let way = self.way(before.literal);
        if let Way::Blank(under) = way {
            return Ok(LineTaken {
                literal: Literal::Under(under),
                waiting: before.waiting + 1,
            });
        }
        self.untabbed()?;
        if let Way::Body(under) = way {
            self.push_body(rows, before.waiting)?;
            return Ok(LineTaken {
                literal: Literal::Under(under),
                waiting: 0,
            });
        }
        let literal = self.push_normal(rows)?;
        Ok(LineTaken {
            literal,
            waiting: 0,
        })
    }
}

/// The significant lines of a text, as rows, in place of what stood there. It refuses a tab in an indentation, a document marker, and
/// the line that is one too many, whichever comes first. Of a refusal anything is left in the rows.
// A `while`, since each turn goes on at the place that the last one found; an iterator of the lines would have this one user.
pub fn read_lines(text: &[u8], rows: &mut Rows) -> Result<(), Refusal>
    requires { length text.now ≤ 65535 }
    ensures { MatchResult result (λ _. Filled text.now rows.new.items) (λ e. significant_lines text.now ≡ refusal e) }
{
    let mut at = 0;
    let mut number = 1;
    let mut taken = LineTaken {
        literal: Literal::Closed,
        waiting: 0,
    };
    rows.clear();
    while at < text.len() {
        let line = RawLine::at(text, at, number);
        taken = line.read_into(rows, taken)?;
        at = line.newline + 1;
        number += 1;
    }
    Ok(())
}

/// Whether a line is `-` or starts with `- `: `-1` and `---` are not.
#[tactic(auto, unfolding(crate::specs::Dash::dashed, refusal::specs::Base::same, refusal::specs::Base::bytes))]
pub fn dashed(line: &[u8]) -> bool
    ensures { result ≡ definition.dashed line.now }
{
    matches!(line, [b'-'] | [b'-', b' ', ..])
}

/// The significant lines of a text: the text, and a row for each line.
#[derive(Drop)]
pub struct Lines<'text, 'rows> {
    text: &'text [u8],
    rows: &'rows [Row],
}

impl<'text, 'rows> Model for Lines<'text, 'rows> {
    ghost use Rattle.std.specs.Prelude.{List};
    ghost use Rattle.lines.specs.Lines.{Line};

    ghost Value = { List Line };

    ghost use Rattle.lines.specs.Table.{table_lines};
    ghost use Rattle.lines.specs.Ready.{Ready};

    ghost view = { λ s. table_lines s.text.now s.rows.now };

    ghost invariant = { λ s. Ready s.text.now s.rows.now };
}

impl<'text, 'rows> Lines<'text, 'rows> {
    /// The lines that `read_lines` found, by the rows that it filled.
    pub fn new(text: &'text [u8], rows: &'rows [Row]) -> Lines<'text, 'rows>
        requires { Ready text.now rows.now }
        ensures { result ≡ table_lines text.now rows.now }
    {
        Lines { text, rows }
    }

    /// How many lines there are.
    pub fn len(&self) -> usize
        ensures value { result ≡ length self.now }
        ensures lines { AreLines self.now }
    {
        self.rows.len()
    }

    /// The indentation of line `i`.
    pub fn indent(&self, i: usize) -> usize
        requires { i < length self.now }
        ensures value { result ≡ (line_at self.now i).indent }
        ensures narrow { result ≤ 65535 }
    {
        let rows = self.rows;
        usize::from(rows[i].indent)
    }

    /// The number of line `i` in the text, from 1.
    pub fn number(&self, i: usize) -> u32
        requires { i < length self.now }
        ensures value { result ≡ (line_at self.now i).number }
        ensures narrow { result ≤ 65535 }
    {
        let rows = self.rows;
        u32::from(rows[i].number)
    }

    /// The text of line `i`, which stays when the rows are filled anew.
    pub fn text(&self, i: usize) -> &'text [u8]
        requires { i < length self.now }
        ensures value { result.now ≡ (line_at self.now i).text }
        ensures short { length result.now ≤ 65535 }
        ensures few { i < most_lines }
    {
        let rows = self.rows;
        // A copy of the row would be loaded whole and taken apart again, which is slower.
        let start = usize::from(rows[i].start);
        let end = usize::from(rows[i].end);
        &self.text[start..end]
    }

    /// Whether line `i` is `-` or starts with `- `, at this indentation.
    pub fn dash_at(&self, i: usize, indent: usize) -> bool
        requires { i < length self.now }
        ensures { result ≡ is_dash indent (line_at self.now i) }
    {
        self.indent(i) == indent && dashed(self.text(i))
    }
}
