// Items, the bytes that trees and records are made of: content length (4 bytes), kind (2 bytes), both little-endian, then the content. They
// are stored in `out` from `at` on, since the writers, which keep both, stand above.
#![tactic(auto)]

ghost use Rattle.std.specs.Prelude.{◌≡◌, ◌+◌, ◌≤◌, ◌<◌, ◌^◌, IfOk, eqb, length, take, drop};
ghost use Rattle.std.specs.List.{list_any};
ghost use Rattle.std.proofs.lemmas.List.Edits.{sets};
ghost use Rattle.refusal.specs.Base.{same};
ghost use Rattle.item.specs.Tree.{null, bool, int, str};
ghost use Rattle.item.specs.Encode.{le, number, head, twos, signed, encode};
ghost use Rattle.item.specs.Places.{header_at};

mod encoded;
mod walk;

pub use encoded::{Encoded, Part};
pub use walk::{Items, Placed, Walk};

/// Of a lent output at most so many bytes count, and a record has at most so many.
pub const LIMIT: usize = 1048576;

/// How many bytes an item's header has.
pub const HEADER: usize = 6;

/// The kinds of items: of trees, and those that only a record has.
#[derive(Clone, Copy, Debug, PartialEq, Eq)]
pub enum Kind {
    Null = 0,
    Bool = 1,
    Int = 2,
    Str = 3,
    Seq = 4,
    Map = 5,
    Scenario = 16,
    Defaults = 17,
    Steps = 18,
    Step = 19,
}

/// A number that no kind has.
#[derive(Clone, Copy, Debug, PartialEq, Eq)]
pub struct UnknownKind;

impl TryFrom<usize> for Kind {
    ghost use Rattle.item.specs.Kinds.{NamesKind};

    type Error = UnknownKind;

    ghost try_from_gives = { NamesKind };

    #[inline]
    fn try_from(number: usize) -> Result<Kind, UnknownKind> {
        match number {
            0 => Ok(Kind::Null),
            1 => Ok(Kind::Bool),
            2 => Ok(Kind::Int),
            3 => Ok(Kind::Str),
            4 => Ok(Kind::Seq),
            5 => Ok(Kind::Map),
            16 => Ok(Kind::Scenario),
            17 => Ok(Kind::Defaults),
            18 => Ok(Kind::Steps),
            19 => Ok(Kind::Step),
            _ => Err(UnknownKind),
        }
    }
}

/// An item as its header tells it: its kind, and the places between which its content stands. Bytes from outside may have any kind.
#[derive(Clone, Copy, Debug, PartialEq, Eq)]
pub struct Item {
    pub kind: usize,
    pub from: usize,
    pub to: usize,
}

impl Item {
    ghost use Rattle.item.specs.Kinds.{number_of};

    /// Whether it has this kind.
    #[inline]
    pub fn is(self, kind: Kind) -> bool
        ensures { result ≡ eqb self.kind (number_of kind) }
    {
        self.kind == kind as usize
    }
}

/// Why no item stands at a place.
#[derive(Clone, Copy, Debug, PartialEq, Eq)]
pub enum Broken {
    /// Fewer bytes than a header has.
    Cut,
    /// A content length that runs past the end.
    PastEnd,
}

/// An integer, by its sign and its magnitude.
// No `i64`: any magnitude is encoded, by its lowest 64 bits, and texts are made of any.
#[derive(Clone, Copy, Debug, PartialEq, Eq)]
pub struct Integer {
    pub negative: bool,
    pub magnitude: u64,
}

impl From<i64> for Integer {
    ghost from_gives = { λ n integer. signed integer.negative integer.magnitude ≡ n };

    #[tactic(auto, using(crate::proofs::Laws::by_sign))]
    #[inline]
    fn from(n: i64) -> Integer {
        Integer {
            negative: n.is_negative(),
            magnitude: n.unsigned_abs(),
        }
    }
}

/// A place that was looked for.
// An enum of its own, as a rule of the project has it: a search says `Found::At(place)` where it is taken apart, and contracts name its cases.
#[derive(Clone, Copy, Debug, PartialEq, Eq)]
pub enum Found {
    At(usize),
    Nothing,
}

/// Stores a header at `at`, six bytes, for a content of `size` bytes. `kind` is a number, as a header can have any of 16 bits.
// A `usize`, since a narrower type would ask more of callers.
pub fn put_header(out: &mut [u8], at: usize, kind: usize, size: usize)
    requires { (at + 6 ≤ length out.old) × (kind < 2 ^ 16) × (size < 2 ^ 32) }
    ensures { out.new ≡ sets out.old at (head kind size) }
{
    out[at..at + 4].copy_from_slice(&(size as u32).to_le_bytes());
    out[at + 4..at + HEADER].copy_from_slice(&(kind as u16).to_le_bytes());
}

/// Stores a null: six bytes.
#[tactic(auto, using(crate::proofs::Laws::null_stored))]
pub fn put_null(out: &mut [u8], at: usize)
    requires { at + 6 ≤ length out.old }
    ensures { out.new ≡ sets out.old at (encode null) }
{
    put_header(out, at, Kind::Null as usize, 0);
}

/// Stores a boolean: seven bytes.
#[tactic(auto, using(crate::proofs::Laws::bool_stored))]
pub fn put_bool(out: &mut [u8], at: usize, value: bool)
    requires { at + 7 ≤ length out.old }
    ensures { out.new ≡ sets out.old at (encode (bool value)) }
{
    put_header(out, at, Kind::Bool as usize, 1);
    out[at + HEADER] = u8::from(value);
}

// The bits of an integer of 64 bits.
#[tactic(auto, using(crate::proofs::Laws::negated), unfolding(crate::specs::Encode::twos, crate::specs::Encode::signed))]
fn twos_complement(n: Integer) -> u64
    ensures { result ≡ twos (signed n.negative n.magnitude) }
{
    if n.negative {
        n.magnitude.wrapping_neg()
    } else {
        n.magnitude
    }
}

/// Stores an integer: fourteen bytes.
pub fn put_int(out: &mut [u8], at: usize, n: Integer)
    requires { at + 14 ≤ length out.old }
    ensures { out.new ≡ sets out.old at (encode (int (signed n.negative n.magnitude))) }
{
    put_header(out, at, Kind::Int as usize, 8);
    out[at + HEADER..at + HEADER + 8].copy_from_slice(&twos_complement(n).to_le_bytes());
}

/// All bytes of `s`, stored from `at` on.
// A loop, since libraries call no `memcpy`; by index, since what is written through `iter_mut` beside a second iterator is not known
// afterwards.
pub fn copy(out: &mut [u8], at: usize, s: &[u8])
    requires { at + length s.now ≤ length out.old }
    ensures { out.new ≡ sets out.old at s.now }
{
    for (i, &b) in s.iter().enumerate() {
        out[at + i] = b;
    }
}

/// Stores a string: six bytes more than it has.
#[tactic(auto, using(crate::proofs::Runs::sets_item), unfolding(crate::specs::Encode::encode))]
pub fn put_string(out: &mut [u8], at: usize, s: &[u8])
    requires { (at + 6 + length s.now ≤ length out.old) × (length s.now < 2 ^ 32) }
    ensures { out.new ≡ sets out.old at (encode (str s.now)) }
{
    put_header(out, at, Kind::Str as usize, s.len());
    copy(out, at + HEADER, s);
}

// The content length of a header. A name for std's conversion, here and below: written out in `header_at`, it would be no plainer.
#[tactic(auto, using(crate::proofs::HeaderPlaces::four_at))]
fn size_at(s: &[u8], at: usize) -> usize
    requires { at + 4 ≤ length s.now }
    ensures { (result ≡ number (take 4 (drop at s.now))) × (result < 2 ^ 32) }
{
    u32::from_le_bytes([s[at], s[at + 1], s[at + 2], s[at + 3]]) as usize
}

// The kind.
#[tactic(auto, using(crate::proofs::HeaderPlaces::two_at))]
fn kind_at(s: &[u8], at: usize) -> usize
    requires { at + 2 ≤ length s.now }
    ensures { result ≡ number (take 2 (drop at s.now)) }
{
    usize::from(u16::from_le_bytes([s[at], s[at + 1]]))
}

/// The item that begins at `at`: any place of any bytes.
#[tactic(auto, using(crate::proofs::HeaderPlaces::at_cut, crate::proofs::HeaderPlaces::at_past, crate::proofs::HeaderPlaces::at_item))]
pub fn header_at(s: &[u8], at: usize) -> Result<Item, Broken>
    ensures value { result ≡ header_at s.now at }
    ensures inside { IfOk result (λ item. (item.from ≡ at + 6) × (item.from ≤ item.to) × (item.to ≤ length s.now)) }
{
    if s.len() < HEADER || s.len() - HEADER < at {
        return Err(Broken::Cut);
    }
    let from = at + HEADER;
    let size = size_at(s, at);
    if s.len() - from < size {
        return Err(Broken::PastEnd);
    }
    Ok(Item {
        kind: kind_at(s, at + 4),
        from,
        to: from + size,
    })
}

/// Whether parts of one length are the same bytes.
// From the end, since long keys are mostly alike at their beginnings; by index, since libraries call no `memcmp`, and two iterators side by
// side, from the end, take two thirds more instructions.
#[tactic(auto, using(crate::proofs::Same::ends))]
pub fn equal_bytes(a: &[u8], b: &[u8]) -> bool
    requires { length a.now ≡ length b.now }
    ensures { result ≡ same a.now b.now }
{
    for i in (0..a.len()).rev() {
        if a[i] != b[i] {
            return false;
        }
    }
    true
}

/// Whether two parts are the same bytes, of whatever length.
#[tactic(auto, using(crate::proofs::Same::same_length))]
pub fn same_bytes(a: &[u8], b: &[u8]) -> bool
    ensures { result ≡ same a.now b.now }
{
    a.len() == b.len() && equal_bytes(a, b)
}

/// Whether bytes are one of some names.
pub fn one_of(bytes: &[u8], names: &[&[u8]]) -> bool
    ensures { result ≡ list_any (λ name. same bytes.now name.now) names.now }
{
    names.iter().any(|name| same_bytes(bytes, name))
}
