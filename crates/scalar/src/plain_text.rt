// Plain scalars, and what each scalar is written as.
ghost use Rattle.std.specs.Prelude.{◌≡◌, true, false, List, ℕ, ◌+◌, ◌≤◌, ◌<◌, ◌^◌, length, drop, get_or};
ghost use Rattle.refusal.specs.Base.{one_of};
ghost use Rattle.item.specs.Tree.{null, bool, int, str};
ghost use Rattle.item.specs.Encode.{signed, item};
ghost use Rattle.writer.specs.Writing.{cap_of, Puts};
ghost use Rattle.number.specs.Integers.{int_text};
ghost use Rattle.scalar.specs.Scalars.{nulls, trues, falses, scalar_of};
ghost use Rattle.scalar.specs.Read as read;
ghost use Rattle.scalar.specs.Read.{ends_item, ends_colon, stops_plain, scalar};
ghost use Rattle.scalar.specs.Contract.{written, is_key, is_in_flow, ReadsValue};
ghost use Rattle.scalar.specs.Code.{yaml_of, plain_len};

use super::{Parsed, Role, Stops};
use item::{Integer, Kind, one_of};
use number::{int_len, integer};
use refusal::Refusal;
use utf8::{first_place, trimmed};
use writer::Writer;

// What a plain text says; a string is the text itself.
#[derive(Clone, Copy)]
enum Said<'a> {
    Null,
    Bool(bool),
    Int(Integer),
    Text(&'a [u8]),
}

impl Said<'_> {
    #[tactic(auto, unfolding(crate::specs::Contract::is_key))]
    fn is_key(self) -> bool
        ensures { result ≡ is_key (yaml_of self.entry) }
    {
        !matches!(self, Said::Null)
    }
}

// By `one_of`, here and in the next two: a `match` on the words would go byte by byte, in the machine code and in the proof.
#[tactic(auto, unfolding(refusal::specs::Base::bytes, refusal::specs::Base::one_of))]
fn is_null(t: &[u8]) -> bool
    ensures { result ≡ one_of t.now nulls }
{
    one_of(t, &[b"", b"~", b"null", b"Null", b"NULL"])
}

#[tactic(auto, unfolding(refusal::specs::Base::bytes, refusal::specs::Base::one_of))]
fn is_true(t: &[u8]) -> bool
    ensures { result ≡ one_of t.now trues }
{
    one_of(t, &[b"true", b"True", b"TRUE"])
}

#[tactic(auto, unfolding(refusal::specs::Base::bytes, refusal::specs::Base::one_of))]
fn is_false(t: &[u8]) -> bool
    ensures { result ≡ one_of t.now falses }
{
    one_of(t, &[b"false", b"False", b"FALSE"])
}

#[tactic(auto, unfolding(crate::specs::Scalars::scalar_of, crate::specs::Scalars::int_or))]
fn said_by(t: &[u8]) -> Said<'_>
    ensures { yaml_of result ≡ scalar_of t.now }
{
    if is_null(t) {
        return Said::Null;
    }
    if is_true(t) {
        return Said::Bool(true);
    }
    if is_false(t) {
        return Said::Bool(false);
    }
    match integer(t) {
        Some(n) => Said::Int(n),
        None => Said::Text(t),
    }
}

// An integer's text as a string.
#[tactic(auto, using(crate::proofs::Laws::rooms))]
fn put_int_key(n: Integer, writer: &mut Writer<'_>) -> Result<(), Refusal>
    ensures { Puts writer.old writer.new (item 3 (int_text (signed n.negative n.magnitude))) result }
{
    writer.header(Kind::Str, int_len(n))?;
    writer.digits(n);
    Ok(())
}

// By itself, for `null_at` too: called from there as well, `put_scalar` would stand in the machine code as a call, and each scalar would
// take some 40 instructions more.
#[tactic(auto, using(crate::proofs::Laws::rooms), unfolding(crate::specs::Contract::written))]
fn put_null(role: Role, writer: &mut Writer<'_>) -> Result<(), Refusal>
    ensures { Puts writer.old writer.new (written role null) result }
{
    match role {
        Role::AsKey => Ok(()),
        Role::AsValue => writer.null(),
    }
}

// What a trimmed text says, in its role: a string is the same in both.
#[tactic(auto, using(crate::proofs::Laws::rooms), unfolding(crate::specs::Contract::written, crate::specs::Scalars::bool_text, refusal::specs::Base::bytes, item::specs::Encode::encode))]
fn put_scalar(said: Said<'_>, role: Role, writer: &mut Writer<'_>) -> Result<(), Refusal>
    ensures { Puts writer.old writer.new (written role (yaml_of said.entry)) result }
{
    match (said, role) {
        (Said::Text(t), _) => writer.string(t),
        (Said::Null, _) => put_null(role, writer),
        (Said::Bool(value), Role::AsValue) => writer.bool(value),
        (Said::Bool(value), Role::AsKey) => writer.string(if value { b"true" } else { b"false" }),
        (Said::Int(n), Role::AsValue) => writer.int(n),
        (Said::Int(n), Role::AsKey) => put_int_key(n, writer),
    }
}

/// A null that nobody wrote, before the place `next`. In a key's place it takes no bytes.
#[tactic(auto, using(crate::proofs::Laws::scalars), unfolding(crate::specs::Contract::is_key))]
pub fn null_at(next: usize, role: Role, writer: &mut Writer<'_>) -> Result<Parsed, Refusal>
    ensures { (line : ℕ) (s : List ℕ) → next ≤ length s → ReadsValue role (scalar (cap_of writer.old) line role writer.old.used null (drop next s))
        s writer.old writer.new result }
{
    put_null(role, writer)?;
    Ok(Parsed { next, key: false })
}

#[tactic(auto, unfolding(crate::specs::Read::ends_item))]
fn ends_item(b: u8) -> bool
    ensures { result ≡ ends_item b }
{
    matches!(b, b',' | b'}' | b']')
}

/// Whether a colon before the place `i` ends plain text in flow: one that is last, or before a space or a byte that ends an item.
#[tactic(auto, using(crate::proofs::Laws::colons))]
pub fn ends_colon(s: &[u8], i: usize) -> bool
    requires { i ≤ length s.now }
    ensures { result ≡ ends_colon (drop i s.now) }
{
    let Some(&b) = s.get(i) else {
        return true;
    };
    let is_space = b == b' ';
    is_space || ends_item(b)
}

#[tactic(auto, unfolding(crate::specs::Read::stops_plain))]
fn stops_plain(s: &[u8], i: usize) -> bool
    requires { i < length s.now }
    ensures { result ≡ stops_plain (get_or s.now i 0) (drop (i + 1) s.now) }
{
    let b = s[i];
    ends_item(b) || b == b':' && ends_colon(s, i + 1)
}

#[tactic(auto, using(crate::proofs::Laws::plain_tops))]
fn plain_end(s: &[u8], i: usize, stops: Stops) -> usize
    requires { i ≤ length s.now }
    ensures here { result ≡ i + plain_len (is_in_flow stops) (drop i s.now) }
    ensures in_range { result ≤ length s.now }
{
    match stops {
        Stops::AtLineEnd => s.len(),
        Stops::InFlow => flow_end(s, i),
    }
}

fn flow_end(s: &[u8], i: usize) -> usize
    requires { i ≤ length s.now }
    ensures here { result ≡ i + plain_len true (drop i s.now) }
    ensures in_range { result ≤ length s.now }
{
    first_place(i, s.len(), |end| stops_plain(s, end))
}

/// The plain scalar at `i`, without the white space around it: what it says, or its text if it says nothing else. It is refused only
/// where it has no room.
pub fn plain(
    s: &[u8],
    i: usize,
    stops: Stops,
    role: Role,
    writer: &mut Writer<'_>,
) -> Result<Parsed, Refusal>
    requires { i ≤ length s.now }
    ensures { (line : ℕ) → ReadsValue role (read.plain (cap_of writer.old) line (is_in_flow stops) role writer.old.used (drop i s.now))
        s.now writer.old writer.new result }
{
    let next = plain_end(s, i, stops);
    let said = said_by(trimmed(&s[i..next]));
    put_scalar(said, role, writer)?;
    Ok(Parsed {
        next,
        key: said.is_key(),
    })
}
