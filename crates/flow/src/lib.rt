// One line's value: a scalar, a flow sequence or a flow mapping, written as it is read. A reader is lent the part of a line that it reads, as
// `s`, and the writer that it writes into; what it wrote before a refusal is kept. Part and place are two parameters, and no struct of both:
// the readers are the core that a `Cursor`, which is that struct, calls by a few thin functions.
#![tactic(auto)]

ghost use Rattle.std.specs.Prelude.{◌≡◌, ◌⊎◌, Bool, true, false, ◌+◌, ◌-◌, ◌≤◌, ◌<◌, ◌^◌, length, drop, get_or, MatchResult};
ghost use Rattle.item.specs.Encode.{encode};
ghost use Rattle.writer.specs.Writing.{cap_of};
ghost use Rattle.scalar.specs.declared.Role.{Role as Roles};
ghost use Rattle.scalar.specs.declared.Role.TheVariants.{AsValue};
ghost use Rattle.scalar.specs.Read.{skip_spaces};
ghost use Rattle.scalar.specs.Contract.{is_in_flow, ReadsValue};
ghost use Rattle.flow.specs.Flow as definition;
ghost use Rattle.flow.specs.Flow.{entry_value};
ghost use Rattle.flow.specs.Contract as agree;
ghost use Rattle.flow.specs.Contract.{skip_separators, flow_items, flow_entries, entry_of, Reads, ReadsPair, ReadsEntries, ReadsWhole};

use item::Kind;
use refusal::Refusal;
use scalar::{Parsed, Quote, Role, Stops};
use utf8::first_place;
use writer::Writer;

/// The place in a line that a reader has come to: the line's bytes, how many of them are read, and how many more collections may be
/// opened there. It is a value that is copied and never lent: a cursor that has gone on is another one, and the line outlives both (`'a`).
// Its functions are few, have no branch and no loop, and hand slice and numbers on. Other crates call `flow`, whose parameters are plain.
#[derive(Clone, Copy, Debug)]
pub struct Cursor<'a> {
    pub line: &'a [u8],
    pub at: usize,
    pub levels: usize,
}

// How many more collections may be opened, and the line's number.
#[derive(Clone, Copy)]
struct Site {
    levels: usize,
    number: u32,
}

impl Site {
    // Inside a collection that opens here.
    fn inside(self) -> Result<Site, Refusal>
        ensures { MatchResult result (λ inside. (self.levels ≡ 0 → ⊥) × (inside.levels ≡ self.levels - 1) × (inside.number ≡ self.number))
            (λ e. (self.levels ≡ 0) × (e ≡ Refusal.TooDeep self.number)) }
    {
        let levels = levels_inside(self.levels, self.number)?;
        Ok(Site { levels, ..self })
    }
}

/// How many more collections may be opened inside one that line `number` opens.
pub fn levels_inside(levels: usize, number: u32) -> Result<usize, Refusal>
    ensures { MatchResult result (λ inside. (levels ≡ 0 → ⊥) × (inside ≡ levels - 1)) (λ e. (levels ≡ 0) × (e ≡ Refusal.TooDeep number)) }
{
    levels
        .checked_sub(1)
        .ok_or(Refusal::TooDeep { line: number })
}

fn skip_spaces(s: &[u8], from: usize) -> usize
    requires { from ≤ length s.now }
    ensures rest { drop result s.now ≡ skip_spaces (drop from s.now) }
    ensures forward { from ≤ result }
    ensures in_range { result ≤ length s.now }
{
    first_place(from, s.len(), |i| s[i] != b' ')
}

// Whether a byte separates the items of a collection: a space, and once there is an item, a comma. `got` says whether there is one: a
// `bool`, since each caller has it from one comparison, and the two names of an enum would only be compared again.
#[tactic(auto, unfolding(crate::specs::Contract::separates))]
fn separates(b: u8, got: bool) -> bool
    ensures { result ≡ agree.separates got b }
{
    b == b' ' || got && b == b','
}

fn skip_separators(s: &[u8], from: usize, got: bool) -> usize
    requires { from ≤ length s.now }
    ensures rest { drop result s.now ≡ skip_separators got (drop from s.now) }
    ensures forward { from ≤ result }
    ensures in_range { result ≤ length s.now }
    ensures other { result < length s.now → agree.separates got (get_or s.now result 0) ≡ false }
{
    first_place(from, s.len(), |i| !separates(s[i], got))
}

// Whether neither plain text nor a sequence takes a byte here.
#[tactic(auto, unfolding(crate::specs::Flow::stuck))]
fn stuck(s: &[u8], i: usize) -> bool
    requires { i < length s.now }
    ensures { result ≡ definition.stuck (get_or s.now i 0) (drop (i + 1) s.now) }
{
    s[i] == b'}' || s[i] == b':' && scalar::ends_colon(s, i + 1)
}

// The items behind a `[`, and the place behind the `]` that closes them. A `loop`, here and in `entries`: it goes on where a value ends. The
// readers ask a place and then take its byte, not by `get`: all that is known of what stands there names the place.
#[tactic(auto, using(crate::proofs::Invariants::lists))]
#[cycle(reading)]
fn sequence(s: &[u8], start: usize, site: Site, writer: &mut Writer<'_>) -> Result<usize, Refusal>
    requires { start ≤ length s.now }
    ensures { Reads encode (flow_items (cap_of writer.old) site.number site.levels writer.old.used (drop start s.now))
        s.now writer.old writer.new result }
{
    let first = writer.used();
    let mut next = start;
    loop {
        let i = skip_separators(s, next, writer.used() > first);
        if i == s.len() {
            return Err(Refusal::FlowSequenceOpen { line: site.number });
        }
        if s[i] == b']' {
            return Ok(i + 1);
        }
        let is_stuck = stuck(s, i);
        if is_stuck {
            return Err(Refusal::StuckSequence { line: site.number });
        }
        let read = value(s, i, site, Stops::InFlow, Role::AsValue, writer)?;
        next = read.next;
    }
}

// Whether an entry has no value, since a comma or a closing brace follows its colon.
#[tactic(auto, unfolding(crate::specs::Contract::leaves_out))]
fn leaves_out(b: u8) -> bool
    ensures { result ≡ agree.leaves_out b }
{
    matches!(b, b',' | b'}')
}

// The value of an entry, null where it is left out, and the place behind it. The place alone: whole, the answer of `value` would be stored
// and at once read again.
#[tactic(auto, using(crate::proofs::Values::entry_values))]
#[cycle(reading)]
fn entry_value(s: &[u8], i: usize, site: Site, writer: &mut Writer<'_>) -> Result<usize, Refusal>
    requires { i ≤ length s.now }
    ensures { Reads encode (entry_value (cap_of writer.old) site.number
        (definition.value (cap_of writer.old) site.number site.levels true) writer.old.used (drop i s.now))
        s.now writer.old writer.new result }
{
    if i < s.len() && leaves_out(s[i]) {
        let null = scalar::null_at(i, Role::AsValue, writer)?;
        return Ok(null.next);
    }
    let read = value(s, i, site, Stops::InFlow, Role::AsValue, writer)?;
    Ok(read.next)
}

// A key, a colon and a value, and the place behind them.
#[tactic(auto, using(crate::proofs::Values::entries))]
#[cycle(reading)]
fn entry(s: &[u8], i: usize, site: Site, writer: &mut Writer<'_>) -> Result<usize, Refusal>
    requires { i ≤ length s.now }
    ensures { ReadsPair (entry_of (cap_of writer.old) site.number (definition.value (cap_of writer.old) site.number site.levels true)
        writer.old.used (drop i s.now)) s.now writer.old writer.new i result }
{
    let key = value(s, i, site, Stops::InFlow, Role::AsKey, writer)?;
    if !key.key {
        return Err(Refusal::KeyNotScalar { line: site.number });
    }
    let colon = skip_spaces(s, key.next);
    if colon == s.len() || s[colon] != b':' {
        return Err(Refusal::KeyWithoutColon { line: site.number });
    }
    entry_value(s, skip_spaces(s, colon + 1), site, writer)
}

// The entries behind a `{`, and the place behind the `}` that closes them. Their keys are not compared. Where an entry is refused, the writer
// is cut back to those before it.
#[tactic(auto, using(crate::proofs::Invariants::maps))]
#[cycle(reading)]
fn entries(s: &[u8], start: usize, site: Site, writer: &mut Writer<'_>) -> Result<usize, Refusal>
    requires { start ≤ length s.now }
    ensures { ReadsEntries (flow_entries (cap_of writer.old) site.number site.levels writer.old.used (drop start s.now)) site.number
        s.now writer.old writer.new result }
{
    let first = writer.used();
    let mut next = start;
    loop {
        let before = writer.used();
        let i = skip_separators(s, next, before > first);
        if i == s.len() {
            return Err(Refusal::FlowMappingOpen { line: site.number });
        }
        if s[i] == b'}' {
            return Ok(i + 1);
        }
        match entry(s, i, site, writer) {
            Ok(end) => next = end,
            Err(refusal) => {
                writer.truncate(before);
                return Err(refusal);
            }
        }
    }
}

// The same, once their keys are compared. Whether one stands twice is judged once, of all the entries that were read: they have one line, and
// come before what refused the next.
#[tactic(auto, using(crate::proofs::Invariants::mappings))]
#[cycle(reading)]
fn mapping(s: &[u8], start: usize, site: Site, writer: &mut Writer<'_>) -> Result<usize, Refusal>
    requires { start ≤ length s.now }
    ensures { Reads encode (flow_entries (cap_of writer.old) site.number site.levels writer.old.used (drop start s.now))
        s.now writer.old writer.new result }
{
    let first = writer.used();
    let end = entries(s, start, site, writer);
    if entries::repeats(writer.written().part(first, writer.used())) {
        return Err(Refusal::KeyTwice { line: site.number });
    }
    end
}

// A collection that opens at `i`.
#[tactic(auto, using(crate::proofs::Values::collections))]
#[cycle(reading)]
fn collection(s: &[u8], i: usize, site: Site, writer: &mut Writer<'_>) -> Result<Parsed, Refusal>
    requires in_range { i < length s.now }
    requires bracket { (get_or s.now i 0 ≡ 123) ⊎ (get_or s.now i 0 ≡ 91) }
    ensures { (in_flow : Bool) (role : Roles) → ReadsValue role
        (definition.value (cap_of writer.old) site.number site.levels in_flow role writer.old.used (drop i s.now))
        s.now writer.old writer.new result }
{
    let inside = site.inside()?;
    let header = writer.begin()?;
    let (kind, next) = if s[i] == b'{' {
        (Kind::Map, mapping(s, i + 1, inside, writer)?)
    } else {
        (Kind::Seq, sequence(s, i + 1, inside, writer)?)
    };
    writer.end(header, kind);
    Ok(Parsed { next, key: false })
}

#[tactic(auto, using(crate::proofs::Values::values))]
#[cycle(reading)]
fn value(
    s: &[u8],
    i: usize,
    site: Site,
    stops: Stops,
    role: Role,
    writer: &mut Writer<'_>,
) -> Result<Parsed, Refusal>
    requires { i ≤ length s.now }
    ensures { ReadsValue role (definition.value (cap_of writer.old) site.number site.levels (is_in_flow stops) role writer.old.used
        (drop i s.now)) s.now writer.old writer.new result }
{
    if i == s.len() {
        return scalar::null_at(i, role, writer);
    }
    match s[i] {
        b'{' | b'[' => collection(s, i, site, writer),
        b'"' => scalar::quoted(Quote::Double, s, i + 1, site.number, writer),
        b'\'' => scalar::quoted(Quote::Single, s, i + 1, site.number, writer),
        b'&' | b'*' | b'!' => Err(Refusal::AnchorAliasOrTag { line: site.number }),
        _ => scalar::plain(s, i, stops, role, writer),
    }
}

impl<'a> Cursor<'a> {
    /// The line's first byte, with so many levels of collections left.
    pub fn start(line: &'a [u8], levels: usize) -> Cursor<'a>
        ensures line { result.line ≡ line.entry }
        ensures place { result.at ≡ 0 }
        ensures levels { result.levels ≡ levels }
    {
        Cursor {
            line,
            at: 0,
            levels,
        }
    }

    /// Behind the spaces at the place; a tab is none.
    pub fn skip_spaces(self) -> Cursor<'a>
        requires { self.at ≤ length self.line.now }
        ensures line { result.line ≡ self.entry.line }
        ensures place { drop result.at self.entry.line.now ≡ skip_spaces (drop self.entry.at self.entry.line.now) }
        ensures in_range { result.at ≤ length self.entry.line.now }
        ensures levels { result.levels ≡ self.entry.levels }
    {
        Cursor {
            at: skip_spaces(self.line, self.at),
            ..self
        }
    }

    /// The value at the place. `number` is the line's number.
    pub fn value(
        self,
        stops: Stops,
        role: Role,
        number: u32,
        writer: &mut Writer<'_>,
    ) -> Result<Parsed, Refusal>
        requires { self.at ≤ length self.line.now }
        ensures { ReadsValue role (definition.value (cap_of writer.old) number self.entry.levels (is_in_flow stops) role writer.old.used
            (drop self.entry.at self.entry.line.now)) self.entry.line.now writer.old writer.new result }
    {
        let site = Site {
            levels: self.levels,
            number,
        };
        value(self.line, self.at, site, stops, role, writer)
    }
}

/// A part of a line that is one value, and whether the value can be a key. What stands behind the value but for spaces is refused last.
#[tactic(auto, using(crate::proofs::Values::parts))]
pub fn flow(
    s: &[u8],
    levels: usize,
    role: Role,
    number: u32,
    writer: &mut Writer<'_>,
) -> Result<bool, Refusal>
    ensures { ReadsWhole role (definition.flow (cap_of writer.old) number levels role writer.old.used s.now)
        writer.old writer.new result }
{
    let read = Cursor::start(s, levels)
        .skip_spaces()
        .value(Stops::AtLineEnd, role, number, writer)?;
    if skip_spaces(s, read.next) == s.len() {
        Ok(read.key)
    } else {
        Err(Refusal::TextAfterValue { line: number })
    }
}
